//! The fields of a record in bytes, as the bit map tells them: by their layout alone, before their limits are checked.

ghost use Rattle.std.specs.Prelude.{◌≡◌, ◌<◌};
ghost use Rattle.std.specs.Option.{option_map};
ghost use Rattle.journal_record.specs.Parse.{bit, take_stamp, take_container, take_size, take_digest, take_live, take_state, take_fields, number_read, part_read, stamp_read, live_read, state_read, fields_read};

/// What the bytes of a record hold.
#[derive(Clone, Copy)]
pub struct Fields<'a> {
    pub container: u8,
    pub key: &'a [u8],
    pub sequence: u32,
    pub writer: u8,
    pub live: Option<LiveFields<'a>>,
}

/// What they hold of a value that is there.
#[derive(Clone, Copy)]
pub struct LiveFields<'a> {
    pub clouds: u8,
    pub size: u16,
    pub digest: &'a [u8],
}

// The bits of the map: which fields there are.
const CONTAINER: u32 = 0;

const CLOUDS: u32 = 1;

const SIZE: u32 = 2;

const SHORT_DIGEST: u32 = 3;

const LONG_DIGEST: u32 = 4;

// The fields past the map and the key's length, and what follows them.
pub(crate) fn take_fields(bytes: &[u8], map: u8, len: u8) -> Option<(Fields<'_>, &[u8])>
    ensures { option_map fields_read result ≡ take_fields map len bytes.now }
{
    if map >> 5 != 0b100 {
        return None;
    }
    let (key, rest) = bytes.split_at_checked(len as usize)?;
    let ((sequence, writer), rest) = take_stamp(rest)?;
    let (container, rest) = take_container(rest, has(map, CONTAINER))?;
    let (live, rest) = take_state(rest, map)?;
    Some((
        Fields {
            container,
            key,
            sequence,
            writer,
            live,
        },
        rest,
    ))
}

fn take_stamp(bytes: &[u8]) -> Option<((u32, u8), &[u8])>
    ensures { option_map stamp_read result ≡ take_stamp bytes.now }
{
    let ([a, b, c, d, writer], rest) = bytes.split_first_chunk::<5>()?;
    Some(((u32::from_be_bytes([*a, *b, *c, *d]), *writer), rest))
}

fn take_container(bytes: &[u8], present: bool) -> Option<(u8, &[u8])>
    ensures { option_map number_read result ≡ take_container present bytes.now }
{
    if !present {
        return Some((0, bytes));
    }
    let (container, rest) = bytes.split_first()?;
    if *container < 1 {
        return None;
    }
    Some((*container, rest))
}

fn take_state(bytes: &[u8], map: u8) -> Option<(Option<LiveFields<'_>>, &[u8])>
    ensures { option_map state_read result ≡ take_state map bytes.now }
{
    if (map >> 1) % 16 == 0 {
        return Some((None, bytes));
    }
    if !has(map, CLOUDS) || has(map, SHORT_DIGEST) == has(map, LONG_DIGEST) {
        return None;
    }
    let (live, rest) = take_live(bytes, map)?;
    Some((Some(live), rest))
}

fn take_live(bytes: &[u8], map: u8) -> Option<(LiveFields<'_>, &[u8])>
    ensures { option_map live_read result ≡ take_live map bytes.now }
{
    let (clouds, rest) = bytes.split_first()?;
    let (size, rest) = take_size(rest, has(map, SIZE))?;
    let (digest, rest) = take_digest(rest, has(map, LONG_DIGEST))?;
    Some((
        LiveFields {
            clouds: *clouds,
            size,
            digest,
        },
        rest,
    ))
}

fn take_size(bytes: &[u8], present: bool) -> Option<(u16, &[u8])>
    ensures { option_map number_read result ≡ take_size present bytes.now }
{
    if !present {
        return Some((0, bytes));
    }
    let ([a, b], rest) = bytes.split_first_chunk::<2>()?;
    let size = u16::from_be_bytes([*a, *b]);
    if size < 1 {
        return None;
    }
    Some((size, rest))
}

fn take_digest(bytes: &[u8], long: bool) -> Option<(&[u8], &[u8])>
    ensures { option_map part_read result ≡ take_digest long bytes.now }
{
    bytes.split_at_checked(if long { 32 } else { 20 })
}

// Whether this bit of the map stands.
fn has(map: u8, place: u32) -> bool
    requires { place < 8 }
    ensures { result ≡ bit place map }
{
    (map >> place) % 2 == 1
}
