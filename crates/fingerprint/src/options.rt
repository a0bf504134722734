//! The words of the command line.
use std::{env, io};

/// Which digest to print.
#[derive(Clone, Copy)]
pub enum Algorithm {
    Sha1,
    Sha256,
}

/// What to print.
#[derive(Drop)]
pub struct Options {
    pub algorithm: Algorithm,
    pub names: Vec<String>,
}

// Whether a word names a file: a lone hyphen does, for standard input.
fn is_name(word: &str) -> bool {
    word == "-" || !word.starts_with('-')
}

/// The options, or the word that is none. Past `--` every word is a name; with no name, standard input is read.
// The word stands inside the other result: one enum for both takes three conversions by hand, and no `?` goes.
pub(super) fn read(rt: &HostRuntime) -> io::Result<Result<Options, String>> {
    let mut algorithm = Algorithm::Sha256;
    let mut only_names = false;
    let mut names = Vec::new(rt.alloc());
    for word in env::args(rt)?.skip(1) {
        if only_names || is_name(word.as_str()) {
            names.push(word)?;
            continue;
        }
        match word.as_str() {
            "--sha1" => algorithm = Algorithm::Sha1,
            "--" => only_names = true,
            _ => return Ok(Err(word)),
        }
    }
    if names.is_empty() {
        names.push(String::from_str(rt.alloc(), "-")?)?;
    }
    Ok(Ok(Options { algorithm, names }))
}
