//! What calls ask of one cloud: to keep the value of a save, and to give the value of a fetch.
#![tactic(auto)]

ghost use Rattle.std.specs.Prelude.{◌≡◌, length, take, Err, nat_lt};
ghost use Rattle.refusal.specs.declared.Refusal.TheVariants.{BufferTooShort};
ghost use Rattle.entry.specs.Entries.{live_value};
ghost use Rattle.row.specs.Rows.{If, numbered};
ghost use Rattle.protocol.specs.Steps.{is_saved_value, save_name, fetch_name};
ghost use Rattle.slots.specs.Values.{digesting, fetching_value, saving_value};
ghost use Rattle.trying.specs.Tried.{Judged, Kept, Tried, put_said};

use digest::kind::DigestKind;
use entry::live::Live;
use naming::name::Name;
use refusal::{CloudFault, Refusal};
use row::fault::at_cloud;
use row::interface::Row;
use slots::doing::Fetching;
use slots::saving::Saving;

/// Puts the value of the save at the cloud.
pub fn put_at<R: Row>(
    row: &mut R,
    cloud: usize,
    saving: &Saving,
    value: &[u8],
) -> Result<(), CloudFault>
    ensures asked { R.puts row.old cloud (save_name (saving_value saving.now)) value.now (put_said result) row.new }
    ensures fault { result ≡ numbered cloud (put_said result) }
{
    let name = saving.name();
    at_cloud(cloud, row.put(cloud, name.as_bytes(), value))
}

// Whether what a cloud gave has the size and the digest of the value that was saved.
fn is_saved<K: DigestKind>(live: &Live, length: usize, part: &[u8]) -> bool
    ensures { result ≡ is_saved_value (digesting K.digested) (live_value live.now) length part.now }
{
    length == live.size() && live.digest().matches::<K>(part)
}

// Asks the cloud to write the value to the part, and says whether that is the value which was saved.
fn ask<R: Row, K: DigestKind>(
    row: &mut R,
    cloud: usize,
    fetching: &Fetching,
    part: &mut [u8],
) -> Result<usize, Refusal>
    ensures judged { let x = fetching_value fetching.now in Judged (λ said got. R.gets row.old cloud (fetch_name x) part.old said got row.new) K.digested cloud x part.new result }
    ensures len { length part.new ≡ length part.old }
{
    let name = Name::new(&fetching.at, &fetching.stamp);
    let length = at_cloud(cloud, row.get(cloud, name.as_bytes(), part))?;
    if !is_saved::<K>(&fetching.live, length, part) {
        return Err(Refusal::ValueMismatch);
    }
    Ok(fetching.live.size())
}

// As `ask`; a part that does not hold the value which was saved is cleared.
fn ask_or_clear<R: Row, K: DigestKind>(
    row: &mut R,
    cloud: usize,
    fetching: &Fetching,
    part: &mut [u8],
) -> Result<usize, Refusal>
    requires { length part.old ≡ (fetching_value fetching.now).live.size }
    ensures { let x = fetching_value fetching.now in Kept (λ said got. R.gets row.old cloud (fetch_name x) part.old said got row.new) K.digested cloud x part.new result }
{
    let answer = ask::<R, K>(row, cloud, fetching, part);
    if answer.is_err() {
        part.fill(0);
    }
    answer
}

/// Asks the cloud for the value of the fetch, into as many bytes at the front of the buffer as the value has. They then
/// hold the value that was saved, or zeros.
pub fn try_at<R: Row, K: DigestKind>(
    row: &mut R,
    cloud: usize,
    fetching: &Fetching,
    buffer: &mut [u8],
) -> Result<usize, Refusal>
    ensures { let x = fetching_value fetching.now in If (nat_lt (length buffer.old) x.live.size) ((result ≡ Err BufferTooShort) × ((buffer.new ≡ buffer.old) × (row.new ≡ row.old))) (Tried (λ said got. R.gets row.old cloud (fetch_name x) (take x.live.size buffer.old) said got row.new) K.digested cloud x buffer.old buffer.new result) }
{
    let size = fetching.live.size();
    if buffer.len() < size {
        return Err(Refusal::BufferTooShort);
    }
    ask_or_clear::<R, K>(row, cloud, fetching, &mut buffer[0..size])
}
