//! A session for C: the library reads and writes one descriptor, at whose other end stand the engine, the functions of the host and the
//! caller (`docs/ENGINE.md`).
#![tactic(auto)]

use canon_descriptor::Descriptor;
use canon_serve::{End, serve};
use std::alloc::Global;

/// Serves one session over a descriptor. Answers 0 where the caller ended it, 1 where the channel failed, 2 where there was no component,
/// 3 where it wasn't instantiated, and 4 where memory ran out.
#[unsafe(no_mangle)]
pub extern "C" fn canon_serve(alloc: Global, channel: i32) -> u32 {
    let mut caller = Descriptor::new(channel);
    let end = serve(
        alloc,
        Descriptor::new(channel),
        Descriptor::new(channel),
        &mut caller,
    );
    match end {
        End::Asked => 0,
        End::Broken => 1,
        End::NoComponent => 2,
        End::NotInstantiated => 3,
        End::OutOfMemory => 4,
    }
}
