//! Laws of the definitions that the contracts cite, whichever kinds of messages there are. Each law
//! is the contract of a function that does nothing.

ghost use Rattle.std.specs.Prelude.{◌≡◌, ℕ, ◌^◌, ◌<◌, List, [], ◌++◌, map, length, slice_index};
ghost use Rattle.std.specs.List.{flat_map, AllByRecursion};
ghost use Rattle.session_core.specs.declared.message_kinds.Kinds.{Kinds};
ghost use Rattle.session_core.specs.Frames.{frame_encoding, MessageView, Ending, Rest, BadLength, BadKind, AreFrames};
ghost use Rattle.session_core.specs.Framer.{Continues};
ghost use Rattle.session_core.specs.Reply.{ack_encoding};
ghost use Rattle.session_core.specs.Told.{Told, bytes_told, spent_in, IsFrame, acknowledged_in};

/// Bytes are frames in at most one way.
pub fn one_decoding()
    ensures messages { (kinds : Kinds) (bytes : List ℕ) (ms ns : List MessageView) (e f : Ending) → AreFrames kinds bytes ms e → AreFrames kinds bytes ns f → ms ≡ ns }
    ensures ending { (kinds : Kinds) (bytes : List ℕ) (ms ns : List MessageView) (e f : Ending) → AreFrames kinds bytes ms e → AreFrames kinds bytes ns f → e ≡ f }
{}

/// Any bytes are the frames of some messages, followed by an ending.
pub fn some_decoding()
    ensures { (kinds : Kinds) (bytes : List ℕ) → ((i : ℕ) → slice_index bytes i < 256)
        → (messages : List MessageView) × (ending : Ending) × AreFrames kinds bytes messages ending }
{}

/// A fault stays, and so do the messages before it, whatever bytes come after.
pub fn lasting_fault()
    ensures length { (kinds : Kinds) (bytes more : List ℕ) (messages : List MessageView) → AreFrames kinds bytes messages BadLength
        → AreFrames kinds (bytes ++ more) messages BadLength }
    ensures kind { (kinds : Kinds) (bytes more : List ℕ) (messages : List MessageView) → AreFrames kinds bytes messages BadKind
        → AreFrames kinds (bytes ++ more) messages BadKind }
{}

/// However a stream is cut, its pieces give the messages and the ending of the whole stream.
pub fn any_cut()
    ensures joined { (kinds : Kinds) (old mid new : Ending) (front back : List ℕ) (ms ns : List MessageView)
        → Continues kinds old front ms mid → Continues kinds mid back ns new → Continues kinds old (front ++ back) (ms ++ ns) new }
    ensures whole { (kinds : Kinds) (stream : List ℕ) (messages : List MessageView) (ending : Ending)
        → Continues kinds (Rest []) stream messages ending → AreFrames kinds stream messages ending }
{}

/// Who reads whole frames from the bytes of replies finds the acknowledgements that were spent for
/// them, in their order and no others, and perhaps not all.
pub fn each_was_spent()
    ensures { (told : List Told) (contents : List (List ℕ)) (rest : List ℕ) → AllByRecursion IsFrame told → AllByRecursion (λ content. length content < 2 ^ 32) contents
        → bytes_told told ≡ flat_map frame_encoding contents ++ rest
        → (others : List (List ℕ)) × (map ack_encoding (spent_in told) ≡ flat_map acknowledged_in contents ++ others) }
{}
