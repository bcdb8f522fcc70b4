//! What a check makes anew of a document, and how a part is compared with bytes.
//!
//! A document is coded anew and its pieces are counted, and so are its terms. None of it needs the text of a set, so
//! these calls, what they read and what their refusals show stand below whatever reads the text or compares the index.
#![tactic(auto)]

mod coded_doc;
mod doc_terms;
mod expected;
mod recent;
mod uses;
mod word_table;
mod words;

pub use coded_doc::{CodedDoc, code_doc};
pub use doc_terms::{DocTerms, weight_of};
pub use expected::{expect_more, expect_whole, wanted};
pub use uses::{Uses, expect_used};
pub use word_table::WordTable;
