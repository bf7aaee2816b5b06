// A decimal number as it is written.
ghost use Rattle.std.specs.Prelude.{◌≡◌, ◌≤◌, length, decimal};
ghost use Rattle.fields.specs.Numbers.{WrittenReadsBack, ReadIsWritten};

// A number's digits are those from `start` on: an array, since printing wants no memory.
#[derive(Clone, Copy, Debug)]
pub struct Numeral {
    digits: [u8; 10],
    start: usize,
    ghost ten: { length digits ≡ 10 },
    ghost within: { start ≤ 10 },
}

impl Numeral {
    ghost use Rattle.fields.specs.Numerals.{figures};

    // The digits of n, from the last one on. By hand: std writes a number into memory or to a writer that may fail,
    // and printing wants no memory and does not fail; with the kit's `itoa` the proofs would rest on one more crate.
    fn spell(n: u32) -> Numeral
        ensures { figures result ≡ decimal n }
    {
        let mut digits = [b'0'; 10];
        let mut start = 10;
        // What is cast is below 10.
        let mut rest = n;
        while rest >= 10 {
            start -= 1;
            digits[start] = b'0' + (rest % 10) as u8;
            rest /= 10;
        }
        start -= 1;
        digits[start] = b'0' + rest as u8;
        Numeral { digits, start }
    }

    // How n is written. Only passes on, so that a wrong number is refused at this clause and not in the loop.
    pub fn of(n: u32) -> Numeral
        ensures { figures result ≡ decimal n }
    {
        Numeral::spell(n)
    }

    pub fn bytes(&self) -> &[u8]
        ensures { result.now ≡ figures self.now }
    {
        &self.digits[self.start..]
    }
}

// Numbers are read as they are written.
pub fn numbers_stand()
    ensures back { WrittenReadsBack }
    ensures only { ReadIsWritten }
{}
