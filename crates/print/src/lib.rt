// Words, decimal numbers and lines of them, written into a lent buffer, or only counted.
#![tactic(auto)]

ghost use Rattle.std.specs.Prelude.{◌≡◌, ℕ, ◌+◌, ◌*◌, ◌≤◌, List, length};
ghost use Rattle.model.specs.Sheet.{decimal, line_text};
ghost use Rattle.print.specs.Print.{Wrote, spaced_number, spaced};
ghost use Rattle.print.specs.Sink.{SinkLaws};
ghost use Rattle.print.specs.Sinks.{most_counted, Counted, counter_laws, Written, writer_laws};

// Where bytes go, one piece after the other.
pub trait Sink {
    // How many bytes were put so far, and how many it takes.
    ghost end: { Self → ℕ };

    ghost room: { Self → ℕ };

    // Puts w s t: the bytes w were put into s, which is then t.
    ghost Puts: { List ℕ → Self → Self → Type 0 };

    fn put(&mut self, bytes: &[u8])
        requires { end self.old + length bytes.now ≤ room self.old }
        ensures { Puts bytes.now self.old self.new };

    // Puts n in decimal, with a space before it.
    fn put_number(&mut self, n: u32)
        requires { end self.old + length (spaced_number n) ≤ room self.old }
        ensures { Puts (spaced_number n) self.old self.new };

    ghost laws: { SinkLaws end room Puts };
}

// How many digits n has.
pub fn number_length(n: u32) -> usize
    ensures { result ≡ length (decimal n) }
{
    if n < 10 {
        return 1;
    }
    if n < 100 {
        return 2;
    }
    let mut rest = n;
    let mut k: usize = 1;
    // No range: how often rest is divided is the answer.
    while 9 < rest {
        rest /= 10;
        k += 1;
    }
    k
}

// Writes n in decimal over the bytes of out, which are as many as its digits, the last digit first.
fn put_digits(out: &mut [u8], n: u32)
    requires { length out.old ≡ length (decimal n) }
    ensures { out.new ≡ decimal n }
{
    let mut rest = n;
    for i in (0..out.len()).rev() {
        out[i] = b'0' + (rest % 10) as u8;
        rest /= 10;
    }
}

// Writes n in decimal from byte at on, and returns where it ends. Most numbers of a report have one or two digits.
pub fn put_number(out: &mut [u8], at: usize, n: u32) -> usize
    requires { at + length (decimal n) ≤ length out.old }
    ensures { Wrote at (decimal n) out.old result out.new }
{
    if n < 10 {
        out[at] = b'0' + n as u8;
        return at + 1;
    }
    if n < 100 {
        out[at + 1] = b'0' + (n % 10) as u8;
        out[at] = b'0' + (n / 10) as u8;
        return at + 2;
    }
    let end = at + number_length(n);
    put_digits(&mut out[at..end], n);
    end
}

// A count of the bytes that are put.
#[derive(Drop)]
pub struct Counter {
    pub count: usize,
}

impl Sink for Counter {
    ghost end = { λ s. s.count };

    ghost room = { λ s. most_counted };

    ghost Puts = { Counted };

    ghost laws = { counter_laws };

    fn put(&mut self, bytes: &[u8]) {
        self.count += bytes.len();
    }

    fn put_number(&mut self, n: u32) {
        self.count += 1 + number_length(n);
    }
}

// A lent buffer, of which the first bytes are written, up to an end.
#[derive(Drop)]
pub struct Writer<'a> {
    pub out: &'a mut [u8],
    pub end: usize,
}

impl Sink for Writer<'_> {
    ghost end = { λ s. s.end };

    ghost room = { λ s. length s.out.now };

    ghost Puts = { Written };

    ghost laws = { writer_laws };

    fn put(&mut self, bytes: &[u8]) {
        let end = self.end + bytes.len();
        self.out[self.end..end].copy_from_slice(bytes);
        self.end = end;
    }

    fn put_number(&mut self, n: u32) {
        let space = self.end;
        self.out[space] = b' ';
        self.end = put_number(self.out, space + 1, n);
    }
}

// Puts the numbers, with a space before each.
fn put_numbers<S: Sink>(out: &mut S, numbers: &[u32])
    requires { S.end out.old + length (spaced numbers.now) ≤ S.room out.old }
    ensures { S.Puts (spaced numbers.now) out.old out.new }
{
    for n in numbers {
        out.put_number(*n);
    }
}

// Puts a line of the report.
pub fn put_line<S: Sink>(out: &mut S, word: &[u8], numbers: &[u32])
    requires { S.end out.old + length (line_text word.now numbers.now) ≤ S.room out.old }
    ensures { S.Puts (line_text word.now numbers.now) out.old out.new }
{
    out.put(word);
    put_numbers(out, numbers);
    out.put(b")\n");
}

// How many bytes a line has: at most 11 for each number.
pub fn line_length(word: &[u8], numbers: &[u32]) -> usize
    requires { (length word.now ≤ 16) × (length numbers.now ≤ 16) }
    ensures { (result ≡ length (line_text word.now numbers.now))
        × (result ≤ length word.now + 11 * length numbers.now + 2) }
{
    let mut line = Counter { count: 0 };
    put_line(&mut line, word, numbers);
    line.count
}
