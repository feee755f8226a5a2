//! Packets that go through the mailboxes of a post.
#![tactic(auto)]

#[cfg(test)]
mod post_tests;
