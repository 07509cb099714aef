//! LP text said once more, as a whole, in a crate of its own, since no other crate is then proved again when it changes.
//!
//! It is about a file and its phrases, their tokens and what they declare.
//! `specs/Phrases.antt` has the phrases, `specs/Spelling.antt` their tokens, and `specs/Meaning.antt` what they declare.
//! `specs/Sentence.antt` says which bytes are LP text. `specs/FaultsInWords.antt` says at which tokens errors are, in terms of
//! the tokens before. The crate has no code other than the laws.
#![tactic(auto)]

pub mod laws;
