// What a line does: messages are put on at the end, and taken off at the front.
ghost use Rattle.std.specs.Prelude.{◌≡◌, ℕ, ◌+◌, ◌<◌, ◌≤◌, true, [], ◌∷◌, ◌++◌, drop, length, vec_len, vec_capacity, slice_index_or, OnOk, MatchOption, is_ok, if◌then◌else◌, ◌==◌};
ghost use Rattle.std.specs.List.{sum};
ghost use Rattle.message.specs.Encode.{encode};
ghost use Rattle.message.specs.Msg.{call};
ghost use Rattle.interworking.specs.Lines.{messages, carried, sizes_in};

use crate::line::Line;
use message::{CallKind, Message, write};
use status::Cic;
use std::alloc::{AllocError, Global};
use words::Word;

// A call message has its CIC and its type before its body.
const HEAD: usize = 3;

// Appends where there is room.
pub(crate) fn append<T: Copy>(list: &mut Vec<T>, more: &[T])
    requires { vec_len list.old + length more.now ≤ vec_capacity list.old }
    ensures items { list.new.items ≡ list.old.items ++ more.now }
{
    let Ok(()) = list.extend_from_slice(more) else {
        unreachable()
    };
}

// Notes the sizes of the messages that words say are to be sent.
fn note(sizes: &mut Vec<usize>, words: &[u32])
    requires { vec_len sizes.old + length words.now ≤ vec_capacity sizes.old }
    ensures { sizes.new.items ≡ sizes.old.items ++ sizes_in words.now }
{
    for word in words {
        if let Ok(Word::Send(_, size)) = Word::try_from(*word) {
            sizes.push_reserved(size as usize);
        }
    }
}

impl Line {
    pub(crate) fn new(alloc: Global) -> Line
        ensures { carried result ≡ [] }
    {
        Line {
            octets: Vec::new(alloc),
            sizes: Vec::new(alloc),
        }
    }

    /// How many messages are on it.
    #[tactic(auto, using(crate::proofs::Cuts::length_messages))]
    pub fn len(&self) -> usize
        ensures { result ≡ length (carried self.now) }
    {
        self.sizes.len()
    }

    #[tactic(auto, using(crate::proofs::Cuts::length_messages))]
    pub fn is_empty(&self) -> bool
        ensures { result ≡ (length (carried self.now) == 0) }
    {
        self.sizes.is_empty()
    }

    /// The front message.
    pub fn front(&self) -> Option<&[u8]>
        ensures { MatchOption result (carried self.now ≡ [])
            (λ front. carried self.now ≡ front.now ∷ drop 1 (carried self.now)) }
    {
        let size = *self.sizes.first()?;
        Some(&self.octets[..size])
    }

    /// The n-th message from the front on.
    #[tactic(auto, using(crate::proofs::Cuts::length_messages))]
    pub fn get(&self, n: usize) -> Option<&[u8]>
        ensures { MatchOption result (length (carried self.now) ≤ n)
            (λ message. (n < length (carried self.now))
            × (message.now ≡ slice_index_or (carried self.now) n [])) }
    {
        let size = *self.sizes.get(n)?;
        let mut start = 0;
        for before in &self.sizes[..n] {
            start += *before;
        }
        Some(&self.octets[start..start + size])
    }

    // Makes room for messages.
    pub(crate) fn reserve(&mut self, messages: usize, octets: usize) -> Result<(), AllocError>
        ensures same { carried self.new ≡ carried self.old }
        ensures messages { OnOk result
            (vec_len self.new.sizes + messages ≤ vec_capacity self.new.sizes) }
        ensures octets { OnOk result
            (vec_len self.new.octets + octets ≤ vec_capacity self.new.octets) }
    {
        self.sizes.reserve(messages)?;
        self.octets.reserve(octets)
    }

    // Puts messages on it whose octets were written in a row, as the words say that were told with
    // them.
    #[tactic(auto, using(crate::proofs::Cuts::messages_append))]
    pub(crate) fn post(&mut self, words: &[u32], octets: &[u8])
        requires messages { vec_len self.old.sizes + length words.now
            ≤ vec_capacity self.old.sizes }
        requires octets { vec_len self.old.octets + length octets.now
            ≤ vec_capacity self.old.octets }
        requires whole { sum (sizes_in words.now) ≡ length octets.now }
        ensures { carried self.new ≡ carried self.old ++ messages (sizes_in words.now) octets.now }
    {
        note(&mut self.sizes, words);
        append(&mut self.octets, octets);
    }

    // Puts a call message on it, if there is memory.
    pub(crate) fn send(&mut self, cic: Cic, kind: CallKind, body: &[u8]) -> Result<(), AllocError>
        requires cic { cic.0 < 4096 }
        requires body { 1 ≤ length body.now }
        ensures { carried self.new
            ≡ carried self.old
            ++ (if is_ok result then encode (call cic.0 kind body.now) ∷ [] else []) }
    {
        let Some(size) = body.len().checked_add(HEAD) else {
            return Err(AllocError);
        };
        self.sizes.reserve(1)?;
        self.octets.reserve(size)?;
        let start = self.octets.len();
        self.octets.resize(start + size, 0)?;
        let Ok(_) = write(Message::Call(cic, kind, body), &mut self.octets[start..]) else {
            unreachable()
        };
        self.sizes.push_reserved(size);
        Ok(())
    }

    // Takes the front message off.
    pub(crate) fn take_off(&mut self)
        requires { 0 < length (carried self.old) }
        ensures { carried self.new ≡ drop 1 (carried self.old) }
    {
        let size = self.sizes.remove(0);
        let left = self.octets.len() - size;
        self.octets.rotate_left(size);
        self.octets.truncate(left);
    }
}
