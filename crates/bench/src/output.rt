//! The output of kernels.

use it_fraction::Fraction;
use std::fmt::Display;
use std::io;

/// The standard output, and the first fault of a write to it: after one nothing more is written.
#[derive(Drop)]
pub struct Output {
    rt: HostRuntime,
    end: io::Result<()>,
}

impl Output {
    /// The standard output before the first write.
    pub fn new(rt: HostRuntime) -> Output {
        Output { rt, end: Ok(()) }
    }

    /// Writes a value as its `Display` does.
    pub fn put<T: Display + Drop>(&mut self, value: T) {
        if self.end.is_ok() {
            self.end = print!(self.rt; "{value}");
        }
    }

    /// Writes a fraction as its numerator, `/` and its denominator.
    pub fn put_fraction(&mut self, number: &Fraction) {
        self.put(number.num());
        self.put('/');
        self.put(number.den());
    }

    /// How all writes ended.
    pub fn end(self) -> io::Result<()> {
        self.end
    }
}
