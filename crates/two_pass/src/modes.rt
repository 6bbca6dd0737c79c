// Serial and counter, holding their compression function by value.
use crate::keystream::{Chained, Chaining, Counted};
use compression::compression::Compression;
use setup::setup::Setup;
use std::marker::PhantomData;

pub mod sealing;

// Both modes: they differ in their keystream alone.
#[derive(Drop)]
pub struct TwoPass<F: Compression, K: Chaining> {
    setup: Setup<F>,
    keystream: PhantomData<K>,
}

pub type Serial<F> = TwoPass<F, Chained>;

pub type Counter<F> = TwoPass<F, Counted>;
