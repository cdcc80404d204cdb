// Translation of an address by the tables in a memory image. An image is lent words, never written; base is the physical address of its first word.
// Both and the root come one by one, as C lends them: a struct would have to be made for each call.
#![tactic(auto)]

mod tables;
mod translation;

pub use translation::{TranslateAnswer, translate, translate_at};
