// An answer's line, put at a place of the output that waits: text, numbers, and the places of a store.
use crate::store;
use wire::refusal::Refusal;

// How many places of a store are shown.
const SHOWN: usize = 12;

// The output that waits, and where the next byte goes.
#[derive(Drop)]
pub struct Line<'a> {
    out: &'a mut [u8],
    at: usize,
}

impl<'a> Line<'a> {
    pub fn new(out: &'a mut [u8], at: usize) -> Line<'a> {
        Line { out, at }
    }

    // Where the next byte goes.
    pub fn end(self) -> usize {
        self.at
    }

    // Text; nothing where there is no room for it.
    pub fn text(&mut self, text: &[u8]) {
        if self.out.len().saturating_sub(self.at) < text.len() {
            return;
        }
        copies::copy_at(self.out, self.at, text);
        self.at = self.at.saturating_add(text.len());
    }

    // A number in decimal.
    fn decimal(&mut self, n: usize) {
        let mut text = [0u8; 20];
        let k = io::decimal(n as u64, &mut text);
        self.text(&text[..k]);
    }

    // A space and a number.
    pub fn number(&mut self, n: usize) {
        self.text(b" ");
        self.decimal(n);
    }

    pub fn numbers(&mut self, values: &[usize]) {
        for value in values {
            self.number(*value);
        }
    }

    // The start of a line.
    pub fn record_and_op(&mut self, record: usize, op: u8) {
        self.decimal(record);
        self.number(usize::from(op));
    }

    // What a call answered: its refusal number, 0 for none, and then its own numbers, which are 0 where it refused.
    pub fn tell<const N: usize>(&mut self, answer: Result<[usize; N], Refusal>) {
        self.tell_beside(answer, [0; N]);
    }

    // The same with what was seen beside a refusal, as the length and the sum of a part that was handed back.
    pub fn tell_beside<const N: usize>(
        &mut self,
        answer: Result<[usize; N], Refusal>,
        refused: [usize; N],
    ) {
        let (number, values) = match answer {
            Ok(values) => (0, values),
            Err(refusal) => (u8::from(refusal), refused),
        };
        self.number(usize::from(number));
        self.numbers(&values);
    }

    // The places of a store or an output that were lent: their sum and the first of them.
    pub fn places<T: Copy + Into<u32>>(&mut self, lent: &[T]) {
        self.text(b" |");
        self.number(store::sum(lent));
        for place in lent.iter().take(SHOWN) {
            let shown: u32 = (*place).into();
            self.number(shown as usize);
        }
    }
}
