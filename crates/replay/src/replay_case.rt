// A recorded case: how its parts are read from the numbers of its line. The layout is that of crates/replay/src/main.rt.
// Each `read` takes its part from the cursor, and answers none where the list has another shape there.
ghost use Rattle.std.specs.Iterator.{at_most};

use reading::CallSettings;

// What is left of a line: its numbers, and as many bytes, which are the same where they fit one.
#[derive(Clone, Copy)]
pub struct Cursor<'a> {
    numbers: &'a [u64],
    bytes: &'a [u8],
}

impl<'a> Cursor<'a> {
    pub fn new(numbers: &'a [u64], bytes: &'a [u8]) -> Cursor<'a> {
        Cursor { numbers, bytes }
    }

    fn is_empty(&self) -> bool {
        self.numbers.is_empty()
    }

    // The next `n` numbers, and as bytes.
    fn take(&mut self, n: usize) -> Option<(&'a [u64], &'a [u8])> {
        let (numbers, numbers_left) = self.numbers.split_at_checked(n)?;
        let (bytes, bytes_left) = self.bytes.split_at_checked(n)?;
        self.numbers = numbers_left;
        self.bytes = bytes_left;
        Some((numbers, bytes))
    }

    fn number(&mut self) -> Option<u64> {
        let (numbers, _) = self.take(1)?;
        numbers.first().copied()
    }

    fn number_up_to(&mut self, most: u64) -> Option<u64> {
        self.number().filter(|&n| n <= most)
    }

    // A list: a count, `most` at most, and so many records of `width` numbers each.
    fn list_up_to(&mut self, width: usize, most: u64) -> Option<&'a [u64]> {
        let n = self.number_up_to(most)? as usize;
        let (numbers, _) = self.take(n.checked_mul(width)?)?;
        Some(numbers)
    }

    pub fn list(&mut self, width: usize) -> Option<&'a [u64]> {
        self.list_up_to(width, u64::MAX)
    }

    // A list of bytes, lent from the line's bytes.
    fn bytes_up_to(&mut self, most: u64) -> Option<&'a [u8]> {
        let n = self.number_up_to(most)? as usize;
        let (numbers, bytes) = self.take(n)?;
        numbers.iter().all(|&n| n <= 255).then_some(bytes)
    }

    // `0`, or `1` and a number.
    fn option(&mut self) -> Option<Option<u64>> {
        match self.number_up_to(1)? {
            0 => Some(None),
            _ => Some(Some(self.number()?)),
        }
    }

    // `0`, or `1` and a text.
    fn option_text(&mut self) -> Option<Option<&'a [u64]>> {
        match self.number_up_to(1)? {
            0 => Some(None),
            _ => Some(Some(self.list(1)?)),
        }
    }
}

// What the transaction holds before the first call. A range that starts above its end removes nothing.
#[derive(Clone, Copy)]
pub struct Entry<'a> {
    pub mode: u64,
    pub access: u64,
    pub processor: u64,
    pub allowed: bool,
    pub stopped: bool,
    pub ranges: &'a [u64],
}

impl<'a> Entry<'a> {
    fn read(c: &mut Cursor<'a>) -> Option<Entry<'a>> {
        Some(Entry {
            mode: c.number_up_to(3)?,
            access: c.number_up_to(2)?,
            processor: c.number_up_to(4)?,
            allowed: c.number_up_to(1)? == 1,
            stopped: c.number_up_to(1)? == 1,
            ranges: c.list_up_to(2, 256)?,
        })
    }
}

// What the phase call is lent.
#[derive(Clone, Copy)]
pub struct Given<'a> {
    pub settings: CallSettings,
    pub rules: &'a [u64],
    pub actions: &'a [u64],
    pub markers: &'a [u64],
    pub text: &'a [u8],
    pub outcomes: &'a [u8],
}

impl<'a> Given<'a> {
    fn read(c: &mut Cursor<'a>) -> Option<Given<'a>> {
        let settings = CallSettings {
            phase: c.number()?,
            mode: c.number()?,
            default_status: c.number()?,
        };
        Some(Given {
            settings,
            rules: c.list_up_to(5, 64)?,
            actions: c.list_up_to(6, 512)?,
            markers: c.list_up_to(3, 16)?,
            text: c.bytes_up_to(4096)?,
            outcomes: c.bytes_up_to(64)?,
        })
    }
}

// The recorded metadata of an intervention.
#[derive(Clone, Copy)]
pub struct Metadata<'a> {
    pub id: Option<u64>,
    pub msg: Option<&'a [u64]>,
    pub logdata: Option<&'a [u64]>,
    pub rev: Option<&'a [u64]>,
    pub ver: Option<&'a [u64]>,
    pub severity: Option<u64>,
    pub maturity: Option<u64>,
    pub accuracy: Option<u64>,
}

impl<'a> Metadata<'a> {
    fn read(c: &mut Cursor<'a>) -> Option<Metadata<'a>> {
        Some(Metadata {
            id: c.option()?,
            msg: c.option_text()?,
            logdata: c.option_text()?,
            rev: c.option_text()?,
            ver: c.option_text()?,
            severity: c.option()?,
            maturity: c.option()?,
            accuracy: c.option()?,
        })
    }
}

// A recorded intervention.
#[derive(Clone, Copy)]
pub struct Stopped<'a> {
    pub status: u64,
    pub drop: u64,
    pub url: Option<&'a [u64]>,
    pub log: Option<&'a [u64]>,
    pub ids: &'a [u64],
    pub phase: u64,
    pub metadata: Metadata<'a>,
}

// The recorded stop: none, one that was held before the call, or a new one.
#[derive(Clone, Copy)]
pub enum Stop<'a> {
    Nothing,
    Held,
    New(Stopped<'a>),
}

impl<'a> Stop<'a> {
    fn read(c: &mut Cursor<'a>) -> Option<Stop<'a>> {
        match c.number_up_to(2)? {
            0 => Some(Stop::Nothing),
            1 => Some(Stop::New(Stopped {
                status: c.number()?,
                drop: c.number()?,
                url: c.option_text()?,
                log: c.option_text()?,
                ids: c.list(1)?,
                phase: c.number()?,
                metadata: Metadata::read(c)?,
            })),
            _ => Some(Stop::Held),
        }
    }
}

// The targets that the call added: how many, and where their texts stand.
#[derive(Clone, Copy)]
pub struct Targets<'a> {
    pub count: u64,
    pub texts: Cursor<'a>,
}

impl<'a> Targets<'a> {
    fn read(c: &mut Cursor<'a>) -> Option<Targets<'a>> {
        let count = c.number()?;
        let texts = *c;
        for _ in 0..count {
            c.list(1)?;
            c.list(1)?;
        }
        Some(Targets { count, texts })
    }
}

// The expected result.
#[derive(Clone, Copy)]
pub struct Expected<'a> {
    pub answer: u64,
    pub error: u64,
    pub visits: &'a [u64],
    pub ids: &'a [u64],
    pub entries: &'a [u64],
    pub mode: u64,
    pub access: u64,
    pub processor: u64,
    pub ranges: &'a [u64],
    pub targets: Targets<'a>,
    pub allowed: u64,
    pub stop: Stop<'a>,
    pub unsupported_index: u64,
    pub unsupported_reason: u64,
}

impl<'a> Expected<'a> {
    fn read(c: &mut Cursor<'a>) -> Option<Expected<'a>> {
        Some(Expected {
            answer: c.number()?,
            error: c.number()?,
            visits: c.list(2)?,
            ids: c.list(1)?,
            entries: c.list(3)?,
            mode: c.number()?,
            access: c.number()?,
            processor: c.number()?,
            ranges: c.list(2)?,
            targets: Targets::read(c)?,
            allowed: c.number()?,
            stop: Stop::read(c)?,
            unsupported_index: c.number()?,
            unsupported_reason: c.number()?,
        })
    }
}

#[derive(Clone, Copy)]
pub struct Call<'a> {
    pub given: Given<'a>,
    pub expected: Expected<'a>,
}

impl<'a> Call<'a> {
    fn read(c: &mut Cursor<'a>) -> Option<Call<'a>> {
        Some(Call {
            given: Given::read(c)?,
            expected: Expected::read(c)?,
        })
    }
}

// The calls of a case, one after the other.
#[derive(Clone, Copy)]
pub struct Calls<'a> {
    left: u64,
    at: Cursor<'a>,
}

impl<'a> Iterator for Calls<'a> {
    type Item = Call<'a>;

    ghost remaining = { λ s. at_most s.left };

    fn next(&mut self) -> Option<Call<'a>> {
        self.left = self.left.checked_sub(1)?;
        Call::read(&mut self.at)
    }
}

#[derive(Clone, Copy)]
pub struct Case<'a> {
    pub entry: Entry<'a>,
    pub calls: Calls<'a>,
}

impl<'a> Case<'a> {
    // The case that a whole line is, or none.
    pub fn read(line: Cursor<'a>) -> Option<Case<'a>> {
        let mut c = line;
        let entry = Entry::read(&mut c)?;
        let left = c.number_up_to(16)?;
        let calls = Calls { left, at: c };
        for _ in 0..left {
            Call::read(&mut c)?;
        }
        c.is_empty().then_some(Case { entry, calls })
    }
}
