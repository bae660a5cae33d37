// The streams that a program is started with, by the numbers that POSIX gives them. No code.
#![tactic(auto)]

// Standard input.
pub const STDIN: i32 = 0;

// Standard output.
pub const STDOUT: i32 = 1;

// Standard error.
pub const STDERR: i32 = 2;
