//! The text of a script, step after step.

use std::alloc::{AllocError, Global};

/// The text so far.
#[derive(Drop)]
pub(crate) struct Text {
    whole: String,
    steps: u32,
}

/// A parameter of a step.
#[derive(Clone, Copy)]
pub(crate) enum Parameter<'a> {
    /// The name of a cyclic, by its number.
    Name(u32),
    /// A word, as the name of a level.
    Word(&'a str),
    Number(u64),
}

impl Text {
    /// A script of so many CPUs with no steps.
    pub(crate) fn new(alloc: Global, cpus: u32) -> Result<Text, AllocError> {
        let mut whole = String::new(alloc);
        whole.push_str("{\"cpus\":")?;
        push_number(&mut whole, u64::from(cpus))?;
        whole.push_str(",\"steps\":[")?;
        Ok(Text { whole, steps: 0 })
    }

    /// A step of this word.
    pub(crate) fn step(
        &mut self,
        word: &str,
        parameters: &[Parameter<'_>],
    ) -> Result<(), AllocError> {
        if self.steps > 0 {
            self.whole.push_str(",\n")?;
        }
        self.steps = self.steps.wrapping_add(1);
        self.whole.push_str("[\"")?;
        self.whole.push_str(word)?;
        self.whole.push('"')?;
        for parameter in parameters {
            self.whole.push(',')?;
            push_parameter(&mut self.whole, *parameter)?;
        }
        self.whole.push(']')
    }

    /// The whole script.
    pub(crate) fn finish(self) -> Result<String, AllocError> {
        let Text {
            mut whole,
            steps: _,
        } = self;
        whole.push_str("]}")?;
        Ok(whole)
    }
}

fn push_parameter(whole: &mut String, parameter: Parameter<'_>) -> Result<(), AllocError> {
    match parameter {
        Parameter::Name(number) => {
            whole.push_str("\"c")?;
            push_number(whole, u64::from(number))?;
            whole.push('"')
        }
        Parameter::Word(word) => {
            whole.push('"')?;
            whole.push_str(word)?;
            whole.push('"')
        }
        Parameter::Number(number) => push_number(whole, number),
    }
}

fn digit(number: u64) -> char {
    char::from(b'0' + (number % 10) as u8)
}

/// The number in decimal.
fn push_number(whole: &mut String, number: u64) -> Result<(), AllocError> {
    let mut digits = ['0'; 20];
    let mut first = 20;
    let mut rest = number;
    for position in (0..20_usize).rev() {
        digits[position] = digit(rest);
        first = position;
        rest /= 10;
        if rest == 0 {
            break;
        }
    }
    for position in first..20 {
        whole.push(digits[position])?;
    }
    Ok(())
}
