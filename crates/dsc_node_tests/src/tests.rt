mod clock;
mod failures;
