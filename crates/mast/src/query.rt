// What is asked of two trees: their texts and lists as they were read.
use lists::LabelPlaces;
use pairs::Pair;
use trees::Edition;

// Two trees that were read, the first one's text, and the edition by which labels are compared.
#[derive(Drop)]
pub(crate) struct Query<'a> {
    pub edition: Edition,
    pub first: &'a [u8],
    pub pair: &'a Pair,
}

// A list that was read: its text, and where its labels stand there.
#[derive(Drop)]
pub(crate) struct Listed<'a> {
    pub text: &'a [u8],
    pub places: LabelPlaces,
}
