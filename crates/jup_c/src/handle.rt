//! The one word that C keeps of a client.
ghost use Rattle.std.specs.Prelude.{◌≡◌, Option, None, Some, MatchOption};
ghost use Rattle.jup_reconnect.specs.declared.any.AnyClient.{AnyClient as Held};
ghost use Rattle.jup_c.specs.Handles.{held, inside_coded};

mod parts;

use jup_reconnect::AnyClient;
use parts::Parts;
use std::alloc::Global;
use std::marker::Model;
use std::mem;
use std::ptr::null_mut;

/// A handle of a client. C makes it all zero and passes its address to the exported functions, which alone read and write it.
#[repr(C)]
pub struct JupClient {
    at: *mut u8,
    alloc: Global,
    ghost inside: { Option Held } by { inside_coded },
}

impl Model for JupClient {
    ghost also_owns = { λ h. held h.alloc h.at h.inside };
}

impl JupClient {
    // A handle of no client.
    fn none(alloc: Global) -> JupClient
        ensures { result.inside ≡ None }
    {
        JupClient {
            at: null_mut(),
            alloc,
        }
    }

    // The handle of a client.
    fn of_parts(parts: Parts<AnyClient, Global>) -> JupClient
        ensures { result.inside ≡ Some parts.value }
    {
        let Parts { at, alloc } = parts;
        JupClient {
            at: at as *mut u8,
            alloc,
        }
    }

    // Its client, if it has one.
    fn into_parts(self) -> Option<Parts<AnyClient, Global>>
        ensures { MatchOption result (self.inside ≡ None) (λ parts. self.inside ≡ Some parts.value) }
    {
        let JupClient { at, alloc } = self;
        if at.is_null() {
            None
        } else {
            Some(Parts {
                at: at as *mut AnyClient,
                alloc,
            })
        }
    }

    /// Takes the client out, if there is one. The handle then has none.
    pub(crate) fn take(&mut self, alloc: Global) -> Option<Box<AnyClient>>
        ensures taken { MatchOption result (self.old.inside ≡ None) (λ client. self.old.inside ≡ Some client.value) }
        ensures none { self.new.inside ≡ None }
    {
        let none = JupClient::none(alloc);
        match mem::replace(self, none).into_parts() {
            Some(parts) => Some(parts.into_box()),
            None => None,
        }
    }

    /// Puts a client in. One that was there is freed.
    pub(crate) fn put(&mut self, client: Box<AnyClient>)
        ensures { self.new.inside ≡ Some client.value }
    {
        let one = JupClient::of_parts(Parts::of(client));
        if let Some(parts) = mem::replace(self, one).into_parts() {
            drop(parts.into_box());
        }
    }
}

unsafe impl Send for JupClient {}
