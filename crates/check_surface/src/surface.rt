// The public surface of the library, named through `jxl_modular` alone: each type, function, variant and field of it.
// One that is missing does not compile, nor does a field that has another type. What the functions take and return,
// and what comes of them, is shown where they are called: by the programs that check rows, and by the one that is
// refused memory.

mod encoder;
mod fields;
mod names;
mod values;
