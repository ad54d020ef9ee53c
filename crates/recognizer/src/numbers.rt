// The sizes of the machine's tables, and the numbers that its states have in the code. States and
// words stay numbers: the tables are proved to be the rows of `grammar` by computing them, and an
// enum of 47 states would be no plainer, since each byte would turn it into a row's number and back.

// How many states there are.
pub const STATES: usize = 47;

// The state in which the text's expression is complete.
pub const DONE: u8 = 16;

// In the table of next states: go back to the state that waits.
pub const BACK: u8 = 48;

// How many classes of bytes a token can begin with.
pub const LEAD_CLASSES: usize = 18;

// The most letters of a name.
pub const NAME_LETTERS: u8 = 16;

// How many numbers the word has that is being read; tables.rt says what they stand for.
pub const WORD_STATES: usize = 60;

// The most bytes of a text.
pub const TEXT_BYTES: usize = 65535;

// One more than the bytes of a text, and so than the brackets that are open in it.
pub const CONTEXTS: usize = 65536;

// A row a state, an entry a class of bytes that a token begins with.
pub type StateTable = [[u8; LEAD_CLASSES]; STATES];

// By a word's number the letter that it awaits.
pub type LetterTable = [u8; WORD_STATES];
