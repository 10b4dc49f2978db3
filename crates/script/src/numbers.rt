//! Decimal numbers.
ghost use Rattle.std.specs.Prelude.{ℕ, List};
ghost use Rattle.buffers.specs.Words.{one, two, four, eight};
ghost use Rattle.std.specs.Int.{w16};
ghost use Rattle.std.proofs.Common.{of_z};
ghost use Rattle.kinds.specs.Packed.{Part, plain, signed};
ghost use Rattle.script.specs.Numbers.{NamesNumber};

/// A number that an argument can write.
pub trait Number: Copy {
    ghost part: { Part };

    ghost number: { Self → ℕ };

    /// The number that an argument writes in decimal digits; nothing where it writes none, or one
    /// that does not fit.
    fn named(argument: &str) -> Option<Self>
        ensures { NamesNumber number part argument.now result };
}

impl Number for u8 {
    ghost part = { plain one };

    ghost number = { λ x. x };

    fn named(argument: &str) -> Option<u8> {
        argument.parse::<u8>().ok()
    }
}

impl Number for u16 {
    ghost part = { plain two };

    ghost number = { λ x. x };

    fn named(argument: &str) -> Option<u16> {
        argument.parse::<u16>().ok()
    }
}

impl Number for u32 {
    ghost part = { plain four };

    ghost number = { λ x. x };

    fn named(argument: &str) -> Option<u32> {
        argument.parse::<u32>().ok()
    }
}

impl Number for u64 {
    ghost part = { plain eight };

    ghost number = { λ x. x };

    fn named(argument: &str) -> Option<u64> {
        argument.parse::<u64>().ok()
    }
}

impl Number for usize {
    ghost part = { plain eight };

    ghost number = { λ x. x };

    fn named(argument: &str) -> Option<usize> {
        argument.parse::<usize>().ok()
    }
}

impl Number for i16 {
    ghost part = { signed };

    ghost number = { of_z w16 };

    fn named(argument: &str) -> Option<i16> {
        argument.parse::<i16>().ok()
    }
}
