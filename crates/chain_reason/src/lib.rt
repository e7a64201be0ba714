// What a tag's refusal shows, and where the next step reads. What each function means is said by the definitions of specs/.
#![tactic(auto)]

mod place;
mod tag;

pub use place::next_place;
pub use tag::tag_numbers;
