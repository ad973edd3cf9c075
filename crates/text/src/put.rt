// Text that grows in a lent buffer: each part is put behind what stands there.
ghost use Rattle.std.specs.Prelude.{◌≡◌, [], ◌≤◌, length};

// The first `end` bytes of a buffer are the text so far.
#[derive(Drop)]
pub struct Text<'a> {
    pub out: &'a mut [u8],
    pub end: usize,
    pub ghost within: { end ≤ length out.now },
}

impl<'a> Text<'a> {
    ghost use Rattle.text.specs.Put.{text_of, Room, Grown};

    // No text yet.
    pub fn new(out: &'a mut [u8]) -> Text<'a>
        ensures text { text_of result ≡ [] }
        ensures room { length result.out.now ≡ length out.old }
        ensures same { result.out.ghost_name ≡ out.entry.ghost_name }
    {
        Text { out, end: 0 }
    }

    // The text so far.
    pub fn bytes(&self) -> &[u8]
        ensures { result.now ≡ text_of self.now }
    {
        &self.out[..self.end]
    }

    // Bytes as they are.
    pub fn put(&mut self, bytes: &[u8])
        requires { Room self.old bytes.now }
        ensures { Grown self.old bytes.now self.new }
    {
        let end = self.end + bytes.len();
        self.out[self.end..end].copy_from_slice(bytes);
        self.end = end;
    }
}
