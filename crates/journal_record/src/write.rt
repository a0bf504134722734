//! Writing a record.

ghost use Rattle.std.specs.Prelude.{◌≡◌, ◌+◌, ◌≤◌, [], ◌∷◌, ◌++◌, length};
ghost use Rattle.std.specs.Option.{option_map};
ghost use Rattle.entry.specs.Entries.{live_value};
ghost use Rattle.journal_record.specs.Records.{record_value};
ghost use Rattle.journal_record.specs.Layout.{container_bit, container_field, digest_bit, encode, head_of, live_bits, live_fields, longest_record, map_of, size_bit, size_field};
ghost use Rattle.journal_record.specs.Written.{Written};
ghost use Rattle.journal_record.specs.Laws.{RecordsReadBack};

use crate::record::{LONGEST_RECORD, Record};
use byte_strings::fixed::FixedBytes;
use entry::live::Live;

// The bytes of a record, as far as they are put together.
type Encoded = FixedBytes<LONGEST_RECORD>;

impl Record {
    /// How many bytes the record takes up.
    pub fn len(&self) -> usize
        ensures { result ≡ length (encode (record_value self.now)) }
    {
        self.encoded().len()
    }

    /// Writes the record to the front of `out`, where there is room, and answers its length.
    pub fn write(&self, out: &mut [u8]) -> Option<usize>
        ensures written { Written out.old (record_value self.now) result out.new }
        ensures read_back { RecordsReadBack }
    {
        let buffer = self.encoded();
        let len = buffer.len();
        if out.len() < len {
            return None;
        }
        out[..len].copy_from_slice(buffer.as_slice());
        Some(len)
    }

    // The bytes of the record.
    fn encoded(&self) -> Encoded
        ensures { result ≡ encode (record_value self.now) }
    {
        let mut buffer = self.head();
        append_container(&mut buffer, self.at.container);
        append_live(&mut buffer, self.entry.live());
        buffer
    }

    // The bytes that every record has.
    fn head(&self) -> Encoded
        ensures { result ≡ head_of (record_value self.now) }
    {
        let mut buffer = FixedBytes::new();
        let stamp = self.entry.stamp();
        buffer
            .append(&[self.map(), self.at.key.len() as u8])
            .unwrap();
        buffer.append(self.at.key.as_bytes()).unwrap();
        buffer.append(&stamp.sequence().to_be_bytes()).unwrap();
        buffer.append(&[stamp.writer()]).unwrap();
        buffer
    }

    // The bit map: which fields there are.
    fn map(&self) -> u8
        ensures { result ≡ map_of (record_value self.now) }
    {
        let map = if self.at.container == 0 { 0x80 } else { 0x81 };
        match self.entry.live() {
            None => map,
            Some(live) => map + live_bits(&live),
        }
    }
}

// A container of 0 is left out.
fn append_container(buffer: &mut Encoded, container: u8)
    requires { length buffer.old + 1 ≤ longest_record }
    ensures { buffer.new ≡ buffer.old ++ container_field container }
{
    if container != 0 {
        buffer.append(&[container]).unwrap();
    }
}

// A deleted entry has no fields of a value.
fn append_live(buffer: &mut Encoded, live: Option<Live>)
    requires { length buffer.old + 35 ≤ longest_record }
    ensures { buffer.new ≡ buffer.old ++ live_fields (option_map live_value live) }
{
    if let Some(live) = live {
        buffer.append(&[live.clouds()]).unwrap();
        append_size(buffer, live.size() as u16);
        buffer.append(live.digest().as_bytes()).unwrap();
    }
}

// A size of 0 is left out.
fn append_size(buffer: &mut Encoded, size: u16)
    requires { length buffer.old + 2 ≤ longest_record }
    ensures { buffer.new ≡ buffer.old ++ size_field size }
{
    if size != 0 {
        buffer.append(&size.to_be_bytes()).unwrap();
    }
}

// The cloud list is always there, the size where it is not 0, and a digest of 20 or of 32 bytes.
fn live_bits(live: &Live) -> u8
    ensures value { result ≡ 2 + size_bit (live_value live.now).size + digest_bit (live_value live.now).digest }
    ensures high { result ≤ 22 }
{
    let size = if live.size() == 0 { 0 } else { 0b100 };
    let digest = if live.digest().as_bytes().len() == 20 {
        0b1000
    } else {
        0b1_0000
    };
    0b10 + size + digest
}
