// Records of test cases: the input that they stand in, lines of fields, text that lines stand for, made-up bytes, and printing. The contracts say
// only that nothing here fails; a slip would change what a program prints, which is compared.
#![tactic(auto)]

pub mod buffers;
pub mod fields;
pub mod streams;
