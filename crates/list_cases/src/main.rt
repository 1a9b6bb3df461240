// Lists the images of data/, of each of which a file holds the bytes from sector 32 on.
#![tactic(auto)]

use std::io::Read;
use std::{fs, io};

fn list_file(rt: &HostRuntime, name: &str) -> io::Result<()> {
    println!(rt; "{name}:")?;
    let Ok(file) = fs::open(rt, name) else {
        return println!(rt; "not opened");
    };
    let mut kept = Vec::with_capacity(rt.alloc(), 65536)?;
    file.take(65536).read_to_end(&mut kept)?;
    listing::list_image(rt, kept.as_slice())
}

fn main(rt: HostRuntime) -> io::Result<()> {
    list_file(&rt, "empty_root")?;
    list_file(&rt, "size_zero")?;
    list_file(&rt, "directory")?;
    list_file(&rt, "no_volume")?;
    list_file(&rt, "second_mark")?;
    list_file(&rt, "cut_in_mark")?;
    list_file(&rt, "cut_in_table")?;
    list_file(&rt, "link_outside")?;
    list_file(&rt, "self_loop")?;
    list_file(&rt, "nothing_at_all")
}
