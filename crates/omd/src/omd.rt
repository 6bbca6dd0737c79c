// OMD, holding its compression function by value.
use compression::compression::Compression;
use setup::setup::Setup;

pub mod sealing;

#[derive(Drop)]
pub struct Omd<F: Compression> {
    setup: Setup<F>,
}
