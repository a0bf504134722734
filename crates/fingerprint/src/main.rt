//! Prints the SHA-256 of each file, or with `--sha1` the SHA-1, in the lines of `sha256sum` and `sha1sum`.
#![tactic(auto)]

use digest::kind::DigestKind;
use digest::value::Digest;
use options::{Algorithm, Options};
use sha1_digest::kind::Sha1;
use sha256::kind::Sha256;
use std::io::{Read, Write};
use std::process::ExitCode;
use std::{fs, io};

mod options;

// The bytes of a file, or of standard input where the name is a hyphen.
fn contents(rt: &HostRuntime, name: &str) -> io::Result<Vec<u8>> {
    if name != "-" {
        return fs::read(rt, name);
    }
    let mut bytes = Vec::new(rt.alloc());
    let _ = rt.stdin().read_to_end(&mut bytes)?;
    Ok(bytes)
}

// Prints the line of one file. A file that cannot be read gives a message and `false`.
fn print_line<K: DigestKind>(rt: &HostRuntime, name: &str) -> io::Result<bool> {
    let bytes = match contents(rt, name) {
        Ok(bytes) => bytes,
        Err(error) => {
            eprintln!(rt; "fingerprint: {name}: {error}")?;
            return Ok(false);
        }
    };
    let digest = Digest::of::<K>(bytes.as_slice());
    let line = checksum::line(rt.alloc(), digest.as_bytes(), name.as_bytes())?;
    rt.stdout().write_all(line.as_slice())?;
    Ok(true)
}

// Whether the line of each file was printed.
fn print_lines<K: DigestKind>(rt: &HostRuntime, names: &[String]) -> io::Result<bool> {
    let mut all = true;
    for name in names {
        all &= print_line::<K>(rt, name.as_str())?;
    }
    Ok(all)
}

fn run(rt: &HostRuntime) -> io::Result<bool> {
    let Options { algorithm, names } = match options::read(rt)? {
        Ok(options) => options,
        Err(word) => {
            eprintln!(rt; "fingerprint: unknown option {word}")?;
            eprintln!(rt; "usage: fingerprint [--sha1] [FILE]..")?;
            return Ok(false);
        }
    };
    match algorithm {
        Algorithm::Sha1 => print_lines::<Sha1>(rt, names.as_slice()),
        Algorithm::Sha256 => print_lines::<Sha256>(rt, names.as_slice()),
    }
}

fn main(rt: HostRuntime) -> ExitCode {
    // What went wrong has been said: the status is all that is left.
    match run(&rt) {
        Ok(true) => ExitCode::SUCCESS,
        _ => ExitCode::FAILURE,
    }
}
