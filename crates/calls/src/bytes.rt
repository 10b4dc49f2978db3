//! The bytes and the numbers that the arguments of a line say.
ghost use Rattle.std.specs.Prelude.{◌≡◌, IfOk};
ghost use Rattle.script.specs.Numbers.{number_for};
ghost use Rattle.calls.specs.Bytes.{IsSaidBy};
ghost use Rattle.script.specs.Arguments.{argument, after_argument};
ghost use Rattle.script.specs.Rest.{rest_of};

use crate::errors::CallError;
use crate::files::read_file;
use script::{ArgumentError, Arguments, Literal, Number, hexadecimal};
use std::alloc::{AllocError, Global};

/// The bytes that an argument says.
fn bytes_of<'a>(rt: &HostRuntime, argument: &'a str) -> Result<Vec<u8>, CallError<'a>>
    ensures { IfOk result (λ v. IsSaidBy argument.now v.items) }
{
    match Literal::of(argument)? {
        Literal::Hexadecimal(digits) => Ok(hexadecimal(rt.alloc(), digits)?),
        Literal::Text(text) => Ok(Vec::from_slice(rt.alloc(), text.as_bytes())?),
        Literal::File(path) => Ok(read_file(rt, path)?),
    }
}

/// The bytes that the next argument says.
pub fn next_bytes<'a>(
    rt: &HostRuntime,
    arguments: &mut Arguments<'a>,
) -> Result<Vec<u8>, CallError<'a>>
    ensures bytes { IfOk result (λ v. IsSaidBy (argument (rest_of arguments.old)) v.items) }
    ensures rest { rest_of arguments.new ≡ after_argument (rest_of arguments.old) }
{
    match arguments.next() {
        Some(argument) => bytes_of(rt, argument),
        None => Err(CallError::Argument(ArgumentError::Missing)),
    }
}

/// The bytes that the only argument says.
pub fn only_bytes<'a>(
    rt: &HostRuntime,
    mut arguments: Arguments<'a>,
) -> Result<Vec<u8>, CallError<'a>>
    ensures { IfOk result (λ v. IsSaidBy (argument (rest_of arguments.entry)) v.items) }
{
    let bytes = next_bytes(rt, &mut arguments)?;
    arguments.end()?;
    Ok(bytes)
}

/// The text that the last argument says; it is empty where no argument is left.
pub fn last_text<'a>(
    rt: &HostRuntime,
    mut arguments: Arguments<'a>,
) -> Result<Vec<u8>, CallError<'a>> {
    let text = match arguments.next() {
        Some(argument) => bytes_of(rt, argument)?,
        None => Vec::new(rt.alloc()),
    };
    arguments.end()?;
    Ok(text)
}

/// The number that the only argument writes.
pub fn only_number<N: Number>(mut arguments: Arguments) -> Result<N, ArgumentError>
    ensures { IfOk result (λ n. N.number n ≡ number_for N.part (argument (rest_of arguments.entry))) }
{
    let number = arguments.number()?;
    arguments.end()?;
    Ok(number)
}

/// The numbers that all arguments write.
pub fn all_numbers<'a>(heap: Global, arguments: Arguments<'a>) -> Result<Vec<u32>, CallError<'a>> {
    let mut numbers = Vec::new(heap);
    for argument in arguments {
        let number = u32::named(argument).ok_or(ArgumentError::NoNumber)?;
        numbers.push(number).map_err(AllocError::from)?;
    }
    Ok(numbers)
}
