// Writing text into a buffer.
#![tactic(auto)]

ghost use Rattle.std.specs.Prelude.{◌≡◌, map, ◌++◌};
ghost use Rattle.text.specs.Ascii.{ascii};
ghost use Rattle.text.specs.Text.{decimal, signed, spaced, HasRoom, Written};

use residue::Word;

// A buffer, and the position behind what was written to it.
#[derive(Drop)]
pub struct Writer<'a> {
    pub text: &'a mut [u8],
    pub end: usize,
}

impl<'a> Writer<'a> {
    pub fn bytes(&mut self, bytes: &[u8])
        requires { HasRoom self.old bytes.now }
        ensures { Written self.old bytes.now self.new }
    {
        buffers::copy(self.text, self.end, bytes);
        self.end += bytes.len();
    }

    pub fn decimal(&mut self, value: usize)
        requires { HasRoom self.old (decimal value) }
        ensures { Written self.old (decimal value) self.new }
    {
        if value >= 10 {
            self.decimal(value / 10);
        }
        self.bytes(&[48 + (value % 10) as u8]);
    }

    fn space(&mut self)
        requires { HasRoom self.old (ascii " ") }
        ensures { Written self.old (ascii " ") self.new }
    {
        self.bytes(b" ");
    }

    // A number behind a space.
    pub fn field(&mut self, value: usize)
        requires { HasRoom self.old (ascii " " ++ decimal value) }
        ensures { Written self.old (ascii " " ++ decimal value) self.new }
    {
        self.space();
        self.decimal(value);
    }

    // A number with a '-' before it where it is negative.
    pub fn signed(&mut self, value: i32)
        requires { HasRoom self.old (signed value) }
        ensures { Written self.old (signed value) self.new }
    {
        if value < 0 {
            self.bytes(b"-");
        }
        self.decimal(residue::magnitude(value) as usize);
    }

    // The same behind a space.
    pub fn signed_field(&mut self, value: i32)
        requires { HasRoom self.old (ascii " " ++ signed value) }
        ensures { Written self.old (ascii " " ++ signed value) self.new }
    {
        self.space();
        self.signed(value);
    }

    // Words, each behind a space. Printing compares and divides them: it is for what is shown.
    pub fn words(&mut self, words: &[Word])
        requires { HasRoom self.old (spaced (map decimal words.now)) }
        ensures { Written self.old (spaced (map decimal words.now)) self.new }
    {
        for word in words {
            self.field(residue::to_usize(*word));
        }
    }
}
