//! What the tables hold. Each look-up is None exactly where the thing isn't there, takes no memory, and leaves the
//! tables as they are.
ghost use Rattle.std.specs.Prelude.{◌≡◌, ◌≤◌, length, option_copied, option_map, is_some, IfSome};
ghost use Rattle.cds_book.specs.Kept.{IsTables};
ghost use Rattle.cds_sign.specs.declared.limits.TheConstants.{MOST_SIGNATURES};
ghost use Rattle.cds_book.specs.Tables.{sequence_of, sequence_at, signatures_of, signed_of, trace_of, trace_versions_of, signals_of, draft_of, method_of, method_versions_of, texts_of};

use crate::entry::numbered;
use crate::tables::Tables;
use cds_base::{Bytes, Name};
use cds_sign::{MOST_VERSIONS, Sequence, Signed};
use cds_trace::Trace;

impl Tables {
    /// Hands up what all tables keep, whatever was done to them: names are names and rise in byte order, each trace is
    /// a trace and each text a method, each version differs from the one before it, the parts of rows and signatures
    /// are in their ranges, editions and bases are counted from 1, what sequences bind and list is there, and no count
    /// passes its limit. It does nothing.
    pub fn rules(&self)
        ensures { IsTables self.now.state }
    {
        let _held = self.trace_versions;
    }

    /// The version of a trace, counted from 1. None where the trace has no version of this number, as of 0.
    pub fn trace(&self, name: Name, version: u32) -> Option<&Trace>
        ensures { option_copied result ≡ trace_of self.now.state name version }
    {
        let Some(versions) = self.traces.find(name) else {
            return None;
        };
        numbered(versions, version)
    }

    /// How many versions a trace name has, 1 to 1,000, which is the number of its latest version.
    pub fn trace_versions(&self, name: Name) -> Option<u32>
        ensures value { result ≡ trace_versions_of self.now.state name }
        ensures few { IfSome result (λ count. count ≤ MOST_VERSIONS) }
    {
        let Some(versions) = self.traces.find(name) else {
            return None;
        };
        Some(versions.len() as u32)
    }

    // The versions of a trace name, none where there is no such name.
    pub(crate) fn signals(&self, name: Name) -> &[Trace]
        ensures { result.now ≡ signals_of self.now.state name }
    {
        let Some(versions) = self.traces.find(name) else {
            return &[];
        };
        versions
    }

    /// The text of a method's draft as it was sent, also where it is frozen as a version already.
    pub fn draft(&self, name: Name) -> Option<&[u8]>
        ensures { option_copied result ≡ draft_of self.now.state name }
    {
        let Some(texts) = self.methods.find(name) else {
            return None;
        };
        Some(texts.draft.as_slice())
    }

    /// The text of a method's version, counted from 1, as it was sent. None where the method has no version of this
    /// number, as of 0.
    pub fn method(&self, name: Name, version: u32) -> Option<&[u8]>
        ensures { option_copied result ≡ method_of self.now.state name version }
    {
        let Some(texts) = self.methods.find(name) else {
            return None;
        };
        let Some(text) = numbered(&texts.versions, version) else {
            return None;
        };
        Some(text.as_slice())
    }

    /// How many versions a method has, at most 1,000, which is the number of its latest version; 0 where it has a
    /// draft alone.
    pub fn method_versions(&self, name: Name) -> Option<u32>
        ensures value { result ≡ method_versions_of self.now.state name }
        ensures few { IfSome result (λ count. count ≤ MOST_VERSIONS) }
    {
        let Some(texts) = self.methods.find(name) else {
            return None;
        };
        Some(texts.versions.len() as u32)
    }

    // The frozen texts of a method, none where there is no such method.
    pub(crate) fn texts(&self, name: Name) -> &[Bytes]
        ensures { result.now ≡ texts_of self.now.state name }
    {
        let Some(texts) = self.methods.find(name) else {
            return &[];
        };
        &texts.versions
    }

    // Whether a method has a draft.
    pub(crate) fn has_draft(&self, name: Name) -> bool
        ensures { result ≡ is_some (draft_of self.now.state name) }
    {
        self.draft(name).is_some()
    }

    /// The sequence of a name, with its edition and its basis, its method, listed sequences and rows as they were put.
    pub fn sequence(&self, name: Name) -> Option<&Sequence>
        ensures { option_copied result ≡ sequence_of self.now.state name }
    {
        let Some(kept) = self.sequences.find(name) else {
            return None;
        };
        Some(&kept.sequence)
    }

    // Whether there is a sequence of this name.
    pub(crate) fn has_sequence(&self, name: Name) -> bool
        ensures { result ≡ is_some (sequence_of self.now.state name) }
    {
        self.sequence(name).is_some()
    }

    /// The sequence at a place in byte order of the names, counted from 0, with its name.
    pub fn sequence_at(&self, i: u32) -> Option<(Name, &Sequence)>
        ensures { option_map (λ e. (e.0, e.1.now)) result ≡ sequence_at self.now.state i }
    {
        let Some(entry) = self.sequences.entries.get(i as usize) else {
            return None;
        };
        Some((entry.name, &entry.value.sequence))
    }

    // How many sequences there are.
    pub(crate) fn sequence_count(&self) -> usize
        ensures { result ≡ length self.now.state.sequences }
    {
        self.sequences.len()
    }

    // The signatures of a sequence, none where there is no such sequence.
    pub(crate) fn signatures(&self, name: Name) -> &[Signed]
        ensures value { result.now ≡ signatures_of self.now.state name }
        ensures few { length result.now ≤ MOST_SIGNATURES }
    {
        let Some(kept) = self.sequences.find(name) else {
            return &[];
        };
        &kept.signed
    }

    /// The signature of a sequence of this number, counted from 1, with the inputs that it is over. None where there is
    /// no such sequence, or no signature of this number, as of 0.
    pub fn signed(&self, sequence: Name, number: u32) -> Option<&Signed>
        ensures { option_copied result ≡ signed_of self.now.state sequence number }
    {
        numbered(self.signatures(sequence), number)
    }
}
