//! Tests of what `path_hub`'s two actors do: their loops over a state that stops before one of its
//! calls, which notices they give, which changes wake whom, and the calls of a long run through a
//! hub beside those of a run of an equal store.

mod loops;
mod notices;
mod rests;
mod scarce;
mod scripts;
mod strangers;
