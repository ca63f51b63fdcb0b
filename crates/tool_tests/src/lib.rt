//! Tests of the tool's crates by their public calls, and tests that run threads: workers that meet at
//! gates, and what goes through the mailboxes.
#![tactic(auto)]

#[cfg(test)]
mod args;
#[cfg(test)]
mod arguments_tests;
#[cfg(test)]
mod call_tests;
#[cfg(test)]
mod command_line_tests;
#[cfg(test)]
mod crash_image_tests;
#[cfg(test)]
mod gates;
#[cfg(test)]
mod journal_place;
#[cfg(test)]
mod journal_tests;
#[cfg(test)]
mod kept_file_tests;
#[cfg(test)]
mod kept_stream_tests;
#[cfg(test)]
mod long_line_tests;
#[cfg(test)]
mod mailbox_tests;
#[cfg(test)]
mod refusal_words_tests;
#[cfg(test)]
mod rejection_tests;
#[cfg(test)]
mod role_rows;
#[cfg(test)]
mod role_tests;
#[cfg(test)]
mod thread_call_tests;
