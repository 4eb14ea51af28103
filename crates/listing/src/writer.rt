// A writer of bytes into a lent slice: texts, and numbers in decimal. It has no bounds: a byte past the slice's
// end is stored nowhere and is counted all the same, so it takes every slice and every position, and a text that is
// written into an empty slice tells how long it is.
ghost use Rattle.std.specs.Prelude.{◌≡◌, ◌+◌, ◌%◌, ◌≤◌, ◌++◌, ◌∷◌, [], drop, length, take};
ghost use Rattle.semantics.specs.Text.{decimal};
ghost use Rattle.listing.specs.Writing.{wrote};

use word::bytes::copy;

// A slice, and the position of the byte that follows. The promises speak of these fields and not of a model: with
// one, whoever lends a writer its slice would not learn what stands there in the end.
#[derive(Drop)]
pub struct Writer<'a> {
    pub out: &'a mut [u8],
    pub at: usize,
}

// The code of a number's last digit.
fn last_digit(n: u64) -> u8
    ensures { result ≡ 48 + n % 10 }
{
    b'0' + (n % 10) as u8
}

// Bytes for which there is room.
// The caller has asked for the room.
fn copy_to(out: &mut [u8], at: usize, bytes: &[u8])
    requires { at + length bytes.now ≤ length out.old }
    ensures { out.new ≡ take at out.old ++ bytes.now ++ drop (at + length bytes.now) out.old }
{
    copy(&mut out[at..at + bytes.len()], bytes);
}

impl<'a> Writer<'a> {
    // One byte. The position is held at the last, where no slice has a byte: behind a byte that is stored it need not be,
    // and is not compared.
    #[tactic(auto, unfolding(crate::specs::Writing::wrote, crate::specs::Writing::written, crate::specs::Writing::put))]
    pub fn put(&mut self, byte: u8)
        ensures { wrote self.old (byte ∷ []) ≡ self.new }
    {
        if self.at < self.out.len() {
            self.out[self.at] = byte;
            self.at += 1;
        } else {
            self.at = self.at.saturating_add(1);
        }
    }

    // The bytes of a slice, one after another. They are put by a writer of their own, which the compiler holds in registers:
    // this one lies behind a reference, and would be read and written again at each byte.
    #[tactic(auto, using(crate::proofs::Writing::bytes_written), unfolding(crate::specs::Writing::wrote))]
    fn put_each(&mut self, bytes: &[u8])
        ensures { wrote self.old bytes.now ≡ self.new }
    {
        let mut writer = Writer {
            out: &mut *self.out,
            at: self.at,
        };
        for byte in bytes {
            writer.put(*byte);
        }
        self.at = writer.at;
    }

    // The bytes of a slice: at once where there is room for all or for none, as there mostly is, and else one by one.
    #[tactic(auto, using(crate::proofs::Writing::bytes_written))]
    pub fn put_bytes(&mut self, bytes: &[u8])
        ensures { wrote self.old bytes.now ≡ self.new }
    {
        let end = self.at.saturating_add(bytes.len());
        if end <= self.out.len() {
            copy_to(self.out, self.at, bytes);
            self.at = end;
        } else if self.out.len() <= self.at {
            self.at = end;
        } else {
            self.put_each(bytes);
        }
    }

    // A number in decimal. Its digits are found from the last to the first, so they are laid at the end of an
    // array that is long enough for any, and need not be counted before. The place of the first is counted by hand:
    // it is wanted after the loop, and an iterator from the back would have it counted beside. They are put one after
    // another, since they are mostly few: how many is not known beforehand, and a copy of fewer than eight at once is a
    // call of memcpy.
    #[tactic(auto, using(crate::proofs::Decimal::digits_laid))]
    fn put_number(&mut self, n: u64)
        ensures { wrote self.old (decimal n) ≡ self.new }
    {
        let mut digits = [0u8; 20];
        let mut first = digits.len();
        let mut rest = n;
        while rest >= 10 {
            first -= 1;
            digits[first] = last_digit(rest);
            rest /= 10;
        }
        first -= 1;
        digits[first] = last_digit(rest);
        self.put_each(&digits[first..]);
    }

    // A label and a number after it, in decimal.
    pub fn put_labelled(&mut self, label: &[u8], n: u64)
        ensures { wrote self.old (label.now ++ decimal n) ≡ self.new }
    {
        self.put_bytes(label);
        self.put_number(n);
    }
}
