// The reader's record in 32 bytes: read_pos, last, handed, generation.
ghost use Rattle.std.specs.Prelude.{◌≡◌, length};
ghost use Rattle.word_rules.specs.Fields.{put_all};
ghost use Rattle.bench_calls.specs.Calls.{reader_of, reader_fields};

use reader_record::reader_with;
use reader_rules::Reader;
use word::number::Word;

pub fn reader_at(bytes: &[u8]) -> Reader
    requires { length bytes.now ≡ 32 }
    ensures { result ≡ reader_of bytes.now }
{
    reader_with(
        u64::get(bytes, 0),
        u64::get(bytes, 8),
        u64::get(bytes, 16),
        u64::get(bytes, 24),
    )
}

pub fn keep_reader(bytes: &mut [u8], reader: Reader)
    requires { length bytes.old ≡ 32 }
    ensures { bytes.new ≡ put_all bytes.old (reader_fields reader) }
{
    u64::put(bytes, 0, reader.read_pos);
    u64::put(bytes, 8, reader.last);
    u64::put(bytes, 16, reader.handed);
    u64::put(bytes, 24, reader.generation);
}
