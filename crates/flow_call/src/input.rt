ghost use Rattle.std.specs.Prelude.{◌<◌};

use flow_desk::read_front;
use std::fs::{self, File};
use std::io;
use std::rt::Files;

/// The bytes of a file. Of one that is longer than the limit they are one more than that, by which it is refused as the whole
/// would be.
pub fn read_file<R: Files<File = File> + AllocGlobal>(
    rt: &R,
    path: &str,
    limit: usize,
) -> io::Result<Vec<u8>>
    requires { limit < usize.MAX }
{
    read_front(rt.alloc(), File::open(rt, path)?, limit)
}

/// The same of standard input where the path is `-`.
pub fn read_source<R: Files<File = File> + Input + AllocGlobal>(
    rt: &R,
    path: &str,
    limit: usize,
) -> io::Result<Vec<u8>>
    requires { limit < usize.MAX }
{
    if path == "-" {
        read_front(rt.alloc(), rt.reader(), limit)
    } else {
        read_file(rt, path, limit)
    }
}

/// Whether there is a folder of that name.
pub fn is_folder<R: Files<File = File>>(rt: &R, path: &str) -> bool {
    match fs::metadata(rt, path) {
        Ok(found) => found.is_dir(),
        Err(_) => false,
    }
}
