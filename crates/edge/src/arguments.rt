//! The arguments of the program.
ghost use Rattle.std.specs.Prelude.{◌≡◌, ◌<◌, ◌≤◌, ◌↔◌, Some, IsSome, IfSome, drop, length, map, slice_get, string_bytes};

use std::env::FillError;
use std::rt::Env;
use std::{env, io};

/// What the program is to work on.
#[derive(Clone, Copy)]
pub struct Request<'a> {
    /// The path of the image.
    pub image: &'a str,
    /// The words that say what is to be done.
    pub words: &'a [String],
}

/// The request in the arguments, of which the first is the program's name: IMAGE, and a word or more.
pub fn request_of(arguments: &[String]) -> Option<Request<'_>>
    ensures some { IsSome result ↔ (2 < length arguments.now) }
    ensures image { IfSome result (λ request. slice_get (map string_bytes arguments.now) 1 ≡ Some request.image.now) }
    ensures words { IfSome result (λ request. request.words.now ≡ drop 2 arguments.now) }
{
    match arguments {
        [_, image, words @ ..] if !words.is_empty() => Some(Request { image, words }),
        _ => None,
    }
}

/// The program's name and the arguments behind it.
///
/// # Errors
///
/// `OutOfMemory` where there is no memory for them, and `InvalidData` where one is not UTF-8.
pub fn read_arguments<R: Env + AllocGlobal>(rt: &R) -> io::Result<Vec<String>> {
    let arguments = env::args(rt)?;
    Ok(arguments.collect(rt.alloc())?)
}

/// The number of the first argument that is not UTF-8, among those that are no longer than `bytes`. Its
/// bytes stand at the front of `bytes`, and it has as many as the second number tells.
pub fn odd_argument<R: Env>(rt: &R, bytes: &mut [u8]) -> Option<(usize, usize)>
    ensures { IfSome result (λ (number, len). len ≤ length bytes.new) }
{
    for number in 0..usize::MAX {
        match rt.arg(number, bytes) {
            Ok(len) if str::from_utf8(&bytes[..len]).is_err() => return Some((number, len)),
            Ok(_) | Err(FillError::TooLong) => {}
            Err(FillError::NotPresent) => return None,
        }
    }
    None
}
