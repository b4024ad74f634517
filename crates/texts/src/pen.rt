// A pen that puts bytes into a buffer one after the other; those that would fall outside are left out and counted, where std's `write!` into a slice would stop.
// `Room` stays a clause: it is of a place and of the text that comes, and no fact of a pen alone.
ghost use Rattle.std.specs.Prelude.{[], ◌∷◌};
ghost use Rattle.sheets.specs.Decimal.{decimal};
ghost use Rattle.sheets.specs.Sheet.{line};
ghost use Rattle.sheets.specs.Emit.{Room};

use number::put;

// A lent buffer, and the place where the next byte goes.
#[derive(Drop)]
pub(crate) struct Pen<'a> {
    pub buffer: &'a mut [u8],
    pub at: usize,
}

impl<'a> Pen<'a> {
    ghost use Rattle.texts.specs.Pen.{Puts};

    // Puts the byte b.
    pub(crate) fn byte(&mut self, b: u8)
        requires { Room self.old.at (b ∷ []) }
        ensures { Puts self.old (b ∷ []) self.new }
    {
        put(self.buffer, self.at, b);
        self.at += 1;
    }

    // Puts bytes one after the other. The loop has buffer and place for itself: in the pen, both would be loaded anew after each byte.
    pub(crate) fn bytes(&mut self, bytes: &[u8])
        requires { Room self.old.at bytes.now }
        ensures { Puts self.old bytes.now self.new }
    {
        let (buffer, mut at) = (&mut *self.buffer, self.at);
        for b in bytes {
            put(buffer, at, *b);
            at += 1;
        }
        self.at = at;
    }

    // Puts the digits of n, the last two at once: each call stores the place, and the next byte waits until it is loaded again.
    #[tactic(auto, using(crate::specs::Laws::Pen::digits_steps))]
    pub(crate) fn number(&mut self, n: u32)
        requires { Room self.old.at (decimal n) }
        ensures { Puts self.old (decimal n) self.new }
    {
        if n < 10 {
            return self.byte(b'0' + n as u8);
        }
        let tens = n / 10;
        if tens < 10 {
            return self.bytes(&[b'0' + tens as u8, b'0' + (n % 10) as u8]);
        }
        self.number(tens / 10);
        self.bytes(&[b'0' + (tens % 10) as u8, b'0' + (n % 10) as u8]);
    }

    // Puts the line of a key with the number n.
    #[tactic(auto, using(crate::specs::Laws::Pen::pen_steps), unfolding(sheets::specs::Sheet::line))]
    pub(crate) fn line(&mut self, key: &[u8], n: u32)
        requires { Room self.old.at (line key.now (decimal n)) }
        ensures { Puts self.old (line key.now (decimal n)) self.new }
    {
        self.bytes(key);
        self.byte(b'=');
        self.number(n);
        self.byte(b'\n');
    }
}
