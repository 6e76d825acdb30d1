// The book's numbers: its sections and limits, its records' fields, and type numbers.

// The sections, by their places in the table of contents.
pub const LETTERS: usize = 0;

pub const NAMES: usize = 1;

pub const TYPES: usize = 2;

pub const CONSTANTS: usize = 3;

pub const FUNCTIONS: usize = 4;

pub const AXIOMS: usize = 5;

pub const PATTERNS: usize = 6;

pub const TERMS: usize = 7;

pub const CONTEXTS: usize = 8;

pub const LISTS: usize = 9;

pub const SECTIONS: usize = 10;

// The size of each section's records.
pub const SIZES: [usize; SECTIONS] = [1, 8, 4, 8, 24, 12, 8, 28, 12, 4];

// The largest count of each section.
pub const LETTERS_MOST: usize = 8192;

pub const NAMES_MOST: usize = 512;

pub const TYPES_MOST: usize = 64;

pub const CONSTANTS_MOST: usize = 256;

pub const FUNCTIONS_MOST: usize = 128;

pub const AXIOMS_MOST: usize = 128;

pub const PATTERNS_MOST: usize = 128;

pub const TERMS_MOST: usize = 1024;

pub const CONTEXTS_MOST: usize = 512;

pub const LISTS_MOST: usize = 2048;

// A node's depth is at most this.
pub const DEPTH_MOST: usize = 400;

// The size of the table of contents.
pub const CONTENTS: usize = 80;

// The fields of a record. A range is named by its start; its count is the field behind, and has a name where it is read by itself.
pub const NAME_START: usize = 0;

pub const NAME_LENGTH: usize = 1;

pub const TYPE_NAME: usize = 0;

pub const CONSTANT_NAME: usize = 0;

pub const CONSTANT_TYPE: usize = 1;

pub const FUNCTION_NAME: usize = 0;

pub const FUNCTION_TYPE: usize = 1;

pub const FUNCTION_INPUTS: usize = 2;

pub const FUNCTION_INPUTS_COUNT: usize = 3;

pub const FUNCTION_EXPLAINED_BY: usize = 4;

pub const AXIOM_TERM: usize = 0;

pub const AXIOM_EXPLAINS: usize = 1;

pub const PATTERN_TERMS: usize = 0;

pub const PATTERN_COUNT: usize = 1;

pub const CONTEXT_PARENT: usize = 0;

pub const CONTEXT_TERM: usize = 1;

pub const CONTEXT_TRACE: usize = 2;

pub const LISTED: usize = 0;

// The fields of a term: its kind, and what each kind has.
pub const KIND: usize = 0;

pub const BOOLEAN_VALUE: usize = 1;

pub const INTEGER_LOW: usize = 1;

pub const INTEGER_HIGH: usize = 2;

pub const LITERAL_NAME: usize = 1;

pub const LITERAL_TYPE: usize = 2;

pub const ID_CONSTANT: usize = 1;

pub const OPERATOR: usize = 1;

pub const ARGUMENTS: usize = 2;

pub const ARGUMENTS_COUNT: usize = 3;

pub const IF_GUARD: usize = 1;

pub const IF_THEN: usize = 2;

pub const IF_ELSE: usize = 3;

pub const LET_CONSTANT: usize = 1;

pub const LET_RHS: usize = 2;

pub const LET_BODY: usize = 3;

pub const QUANTIFIER_UNIVERSAL: usize = 1;

pub const QUANTIFIER_CONSTANTS: usize = 2;

pub const QUANTIFIER_CONSTANTS_COUNT: usize = 3;

pub const QUANTIFIER_PATTERNS: usize = 4;

pub const QUANTIFIER_PATTERNS_COUNT: usize = 5;

pub const QUANTIFIER_BODY: usize = 6;

// Type numbers: Bool, Int, and from USER_TYPES up the user types.
pub const BOOL: usize = 0;

pub const INT: usize = 1;

pub const USER_TYPES: usize = 2;

// An axiom's term where it has none.
pub const NO_TERM: usize = 0xFFFFFFFF;
