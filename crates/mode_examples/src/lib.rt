// The modes over SHA-256 and SHA-512, computed by their definitions, against the bytes of a second
// program. Unlike the worked examples on the trial function, these pin table, kinds and indices.
#![tactic(auto)]

ghost use Rattle.mode_examples.specs.Vectors.{Vectors};

// The definitions give the bytes of the second program.
pub fn vectors_hold()
    ensures { Vectors }
{}
