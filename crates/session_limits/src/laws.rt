//! Laws of what a limited service answers. Each law is the contract of a function that does
//! nothing.

ghost use Rattle.std.specs.Prelude.{◌≡◌, false, Option, IsSome};
ghost use Rattle.seg_core.specs.declared.error.SegError.{SegError};
ghost use Rattle.session_core.specs.Commands.{command_kind};
ghost use Rattle.session_core.specs.Frames.{MessageView};
ghost use Rattle.session_core.specs.Reply.{ReplyView, Refused};
ghost use Rattle.session_limits.specs.Limits.{LimitedView, LimitedAnswers};
ghost use Rattle.session_limits.specs.Readings.{ReadsAs, untaken_code};

use session_core::Service;

/// A session that takes no commands refuses each one, and nothing changes: by the code of why it
/// cannot be read, or by the one of a session that takes none.
pub fn commands_are_not_taken<S: Service>()
    ensures { (old : LimitedView S.State) (message : MessageView) (reply : ReplyView) (new : LimitedView S.State)
        → old.commands ≡ false → IsSome (command_kind message) → LimitedAnswers S.answers old message reply new
        → ((fault : Option SegError) × (ReadsAs message fault × (reply ≡ Refused (untaken_code fault)))) × (new ≡ old) }
{}
