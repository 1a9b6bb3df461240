// Lists the root directory of the image on standard input: discards the 65,536 bytes before sector 32, and keeps
// the 32 sectors from there on.
#![tactic(auto)]

use std::io;
use std::io::Read;

// (The library's three calls, here and in the other programs: a function for them would need a crate that the
// programs share.)
fn main(rt: HostRuntime) -> io::Result<()> {
    let mut input = rt.reader();
    io::copy(&mut input.by_ref().take(65536), &mut io::sink())?;
    let mut kept = Vec::with_capacity(rt.alloc(), 65536)?;
    input.take(65536).read_to_end(&mut kept)?;
    listing::list_image(&rt, kept.as_slice())
}
