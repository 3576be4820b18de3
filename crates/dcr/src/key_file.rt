// The key of a site, in a file of the current folder.
use dcr_base::{ReadStop, StdSource, read_all};
use std::alloc::Global;
use std::env::Args;
use std::fs::File;
use std::io;
use std::io::{Eprint, ErrorKind};
use std::rt::Files;

// The file, in the current folder.
const NAME: &str = "dcr.key";

// The bytes of a key's text: 64 digits and a line end.
const KEY_BYTES: usize = 65;

/// What a site's key is read from.
#[derive(Drop)]
pub(crate) enum KeyFile {
    /// The text, where there is one.
    Text(Option<Vec<u8>>),
    /// There is one that couldn't be read, or the words couldn't.
    Unread,
}

/// The file's text where the words are those of a site alone, and none where they are others or there is no file. Of a file with more
/// bytes than a key it is the text of no key. Words that can't be read are none of others, so that no key is missed.
pub(crate) fn key_file<R: Files<File = File> + Eprint>(
    rt: &R,
    alloc: Global,
    words: io::Result<Args>,
) -> KeyFile {
    let Ok(mut words) = words else {
        return KeyFile::Unread;
    };
    let _program = words.next();
    let word = words.next();
    let more = words.next();
    match word {
        Some(word) if more.is_none() && word.as_str() == "site" => read_key(rt, alloc),
        _ => KeyFile::Text(None),
    }
}

// The file's text.
fn read_key<R: Files<File = File> + Eprint>(rt: &R, alloc: Global) -> KeyFile {
    let file = match File::open(rt, NAME) {
        Ok(file) => file,
        Err(error) if error.kind() == ErrorKind::NotFound => return KeyFile::Text(None),
        Err(error) => {
            let _said = eprintln!(rt; "dcr: the file {NAME} can't be opened: {error}");
            return KeyFile::Unread;
        }
    };
    match read_all(alloc, &mut StdSource::new(&file), KEY_BYTES) {
        Ok(text) => KeyFile::Text(Some(text)),
        Err(ReadStop::TooLong) => KeyFile::Text(Some(Vec::new(alloc))),
        Err(_) => {
            let _said = eprintln!(rt; "dcr: the file {NAME} can't be read");
            KeyFile::Unread
        }
    }
}
