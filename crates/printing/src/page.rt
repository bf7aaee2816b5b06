// A lent buffer that texts are written into, one after another.
ghost use Rattle.std.specs.Prelude.{◌≡◌, [], ◌∷◌};
ghost use Rattle.printing.specs.Pages.{EndFits, Wrote};

// The next byte goes to the place `at`. A byte that has no place in the buffer is left out.
// A buffer and a place and no Vec, since printing wants no memory; the place goes on past the end, so that it gives the
// text's length.
#[derive(Drop)]
pub(crate) struct Page<'a> {
    out: &'a mut [u8],
    pub(crate) at: usize,
}

impl<'a> Page<'a> {
    // The buffer from its start on.
    pub(crate) fn new(out: &'a mut [u8]) -> Page<'a>
        ensures same_buffer { result.out.ghost_name ≡ out.entry.ghost_name }
        ensures bytes { result.out.now ≡ out.old }
        ensures start { result.at ≡ 0 }
    {
        Page { out, at: 0 }
    }

    // Writes the byte, and goes on after it. That the end fits is no invariant of the page: it speaks of a text still to
    // be written.
    #[tactic(auto, using(std::proofs::lemmas::List::set_past))]
    pub(crate) fn put_byte(&mut self, byte: u8)
        requires { EndFits self.old (byte ∷ []) }
        ensures { Wrote self.old (byte ∷ []) self.new }
    {
        if self.at < self.out.len() {
            self.out[self.at] = byte;
        }
        self.at += 1;
    }

    // Writes the bytes, and goes on after them. One by one: they are few, and a copy of a part takes several times as long.
    #[tactic(auto, using(std::proofs::lemmas::Grind::common_steps, crate::proofs::Written::in_turn))]
    pub(crate) fn put(&mut self, bytes: &[u8])
        requires { EndFits self.old bytes.now }
        ensures { Wrote self.old bytes.now self.new }
    {
        for &byte in bytes {
            self.put_byte(byte);
        }
    }
}
