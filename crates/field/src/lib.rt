// Cutting bytes into fields: a tag (1 byte), a length (2 bytes, little-endian) and that many content bytes.
// The work is in `cut_at`, on a slice and an offset. `Reader` holds the two, and `field_at` is what callers use.
#![tactic(auto)]

ghost use Rattle.std.specs.Prelude.{◌≡◌, ◌+◌, ◌≤◌, ◌<◌, length};
ghost use Rattle.field.specs.Field.{cut_at, cut_meaning, le16_at};

// The bytes before a field's content: its tag, and its length in two bytes.
pub const HEADER_LENGTH: usize = 3;

// A whole field: its content is the len bytes from start, and next is the offset past it. (len stays beside the two, since the
// definitions' field has it.)
// (A caller cuts the content out by start and next: a method would be given the bytes again, with a clause that the field is of them.)
#[derive(Clone, Copy, PartialEq, Eq, Debug)]
pub struct Field {
    pub tag: u8,
    pub start: usize,
    pub len: usize,
    pub next: usize,
}

// Why no whole field stands at an offset.
#[derive(Clone, Copy, PartialEq, Eq, Debug)]
pub enum NoField {
    // Its header or content runs past the end.
    Short,
    // No byte at the offset.
    Absent,
}

// The two bytes at an offset as one number, little-endian.
pub fn u16_at(s: &[u8], at: usize) -> usize
    requires { at + 1 < length s.now }
    ensures value { result ≡ le16_at s.now at }
    ensures small { result < 65536 }
{
    usize::from(u16::from_le_bytes([s[at], s[at + 1]]))
}

// The cutter.
pub fn cut_at(s: &[u8], at: usize) -> Result<Field, NoField>
    ensures { cut_meaning result ≡ cut_at s.now at }
{
    let n = s.len();
    if n <= at {
        return Err(NoField::Absent);
    }
    if n - at < HEADER_LENGTH {
        return Err(NoField::Short);
    }
    let start = at + HEADER_LENGTH;
    let len = u16_at(s, at + 1);
    if n - start < len {
        return Err(NoField::Short);
    }
    Ok(Field {
        tag: s[at],
        start,
        len,
        next: start + len,
    })
}

// Bytes and an offset in them: a thin reader over cut_at (docs/DECISIONS.md, "Fields and sheets").
#[derive(Clone, Copy, PartialEq, Eq, Debug)]
pub struct Reader<'a> {
    pub src: &'a [u8],
    pub at: usize,
}

impl<'a> Reader<'a> {
    pub fn new(src: &'a [u8], at: usize) -> Reader<'a>
        ensures source { result.src ≡ src.entry }
        ensures place { result.at ≡ at }
    {
        Reader { src, at }
    }

    // The field at the reader's offset.
    pub fn field(self) -> Result<Field, NoField>
        ensures { cut_meaning result ≡ cut_at self.entry.src.now self.entry.at }
    {
        cut_at(self.src, self.at)
    }
}

// The field at an offset, by a reader.
pub fn field_at(s: &[u8], at: usize) -> Result<Field, NoField>
    ensures { cut_meaning result ≡ cut_at s.now at }
{
    Reader::new(s, at).field()
}
