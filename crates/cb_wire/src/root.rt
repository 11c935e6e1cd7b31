//! The folder that names are relative to.
ghost use Rattle.std.specs.Prelude.{◌≡◌, ◌++◌, ◌-◌, ◌≤◌, ◌<◌, ◌^◌, IfOk, drop, length};
ghost use Rattle.std.specs.Option.{option_map};
ghost use Rattle.cb_tags.specs.Writing.{Puts};
ghost use Rattle.json.specs.Print.{escape};
ghost use Rattle.cb_wire.specs.Uris.{name_below, escaped, escaped_path, given_name, name_in};
ghost use Rattle.cb_wire.specs.Uris.{of_folder, of_uri};
ghost use Rattle.cb_wire.specs.Uris.{path_below, uri_of, without_slashes};

use crate::part::{json_length, put_json, put_sized};
use crate::uri::{
    append_escaped, begins_with_slash, below, escaped_length, escaped_path, last_slashes,
    one_form_of, put_escaped,
};
use cb_tags::{Sink, WriteFault, put_texts};
use percent_encoding::percent_decode;
use std::alloc::{AllocError, Global};
use std::io::Write;
use std::marker::Model;

/// The folder that names are relative to: its path, and its URI as it is written.
#[derive(Debug, Drop)]
pub struct Root {
    path: Vec<u8>,
    uri: Vec<u8>,
    /// How many bytes the URI takes inside a string of JSON.
    inside: u128,
}

impl Model for Root {
    ghost use Rattle.std.specs.Prelude.{◌≡◌, ◌<◌, ◌^◌, length};
    ghost use Rattle.json.specs.Print.{escape};
    ghost use Rattle.cb_wire.specs.Uris.{Below};

    ghost Value = { Below };

    ghost view = { λ root. record { path = root.path.items; uri = root.uri.items } };

    ghost invariant = { λ root.
        (root.inside ≡ length (escape root.uri.items)) × (root.inside < 2 ^ 67) };
}

/// A text without its first byte.
fn without_first(text: &[u8]) -> &[u8]
    ensures { result.now ≡ drop 1 text.now }
{
    match text {
        [_, rest @ ..] => rest,
        [] => text,
    }
}

/// The name of the file of a path in one form: below a root, if there is one.
fn name_in<'a>(root: Option<&Root>, path: &'a [u8]) -> &'a [u8]
    ensures { result.now ≡ name_in (option_map (λ r. r.now.path) root.entry) path.now }
{
    match root {
        Some(root) => root.name(path),
        None => path,
    }
}

/// The name of the file of a path that is given: no segment of it is empty or a dot, and it is below
/// the root, if there is one and the path begins with it. One that begins with no slash is a name
/// already.
pub fn given_name(alloc: Global, root: Option<&Root>, path: &[u8]) -> Result<Vec<u8>, AllocError>
    ensures { IfOk result (λ name.
        name.items ≡ given_name (option_map (λ r. r.now.path) root.entry) path.now) }
{
    let form = one_form_of(alloc, path)?;
    let shown = if begins_with_slash(path) {
        name_in(root, form.as_slice())
    } else {
        without_first(form.as_slice())
    };
    Vec::from_slice(alloc, shown)
}

/// A text without its last bytes.
fn without(count: usize, text: &[u8]) -> &[u8]
    requires { count ≤ length text.now }
    ensures { result.now ≡ without_slashes count text.now }
{
    text.split_at(text.len() - count).0
}

impl Root {
    /// The root that is this folder, whose path begins with a slash; or no folder, where it has no
    /// bytes.
    pub fn of_folder(alloc: Global, folder: &[u8]) -> Result<Root, AllocError>
        ensures { IfOk result (λ root. root ≡ of_folder folder.now) }
    {
        let folder = without(last_slashes(folder), folder);
        let path = one_form_of(alloc, folder)?;
        let mut uri = Vec::new(alloc);
        uri.extend_from_slice(b"file://")?;
        append_escaped(&mut uri, folder)?;
        let inside = json_length(uri.as_slice());
        Ok(Root { path, uri, inside })
    }

    /// The root that a file URI names; `None` for any other text.
    pub fn of_uri(alloc: Global, uri: &[u8]) -> Result<Option<Root>, AllocError>
        ensures { IfOk result
            (λ root. root ≡ option_map (of_uri uri.now) (escaped_path uri.now)) }
    {
        let Some(escaped) = escaped_path(uri) else {
            return Ok(None);
        };
        let slashes = last_slashes(escaped);
        let decoded = percent_decode(without(slashes, escaped)).into_cow(alloc)?;
        let path = one_form_of(alloc, decoded.as_slice())?;
        let mut text = Vec::new(alloc);
        text.extend_from_slice(without(slashes, uri))?;
        let inside = json_length(text.as_slice());
        Ok(Some(Root {
            path,
            uri: text,
            inside,
        }))
    }

    /// The name of the file at a path: the path below the root, or else the whole path.
    pub fn name<'a>(&self, path: &'a [u8]) -> &'a [u8]
        ensures { result.now ≡ name_below self.now.path path.now }
    {
        match below(self.path.as_slice(), path) {
            Some(name) => name,
            None => path,
        }
    }

    /// The path of the file of a name: the name itself, if it begins with a slash, or else below the
    /// root.
    pub fn path_of(&self, alloc: Global, name: &[u8]) -> Result<Vec<u8>, AllocError>
        ensures { IfOk result (λ path. path.items ≡ path_below self.now.path name.now) }
    {
        let mut path = Vec::new(alloc);
        if begins_with_slash(name) {
            path.extend_from_slice(name)?;
            return Ok(path);
        }
        path.extend_from_slice(self.path.as_slice())?;
        path.push(b'/')?;
        path.extend_from_slice(name)?;
        Ok(path)
    }

    /// The URI of the root, as it is written.
    pub fn uri(&self) -> &[u8]
        ensures { result.now ≡ self.now.uri }
    {
        self.uri.as_slice()
    }

    /// What stands before a name in its URI: a text, how many bytes it takes inside a string of
    /// JSON, and a slash or nothing.
    #[tactic(auto, unfolding(json::specs::Print::escape_byte))]
    fn front(&self, name: &[u8]) -> (&[u8], u128, &[u8])
        ensures uri { result.0.now ++ (result.2.now ++ escaped name.now)
            ≡ uri_of self.now name.now }
        ensures size { result.1 ≡ length (escape result.0.now) }
        ensures few { result.1 < 2 ^ 67 }
    {
        if begins_with_slash(name) {
            (b"file://", 7, b"")
        } else {
            (self.uri.as_slice(), self.inside, b"/")
        }
    }

    /// Writes the URI of a name.
    pub fn put_uri<W: Write>(&self, out: &mut Sink<W>, name: &[u8]) -> Result<(), WriteFault>
        ensures { Puts out.old out.new result (uri_of self.now name.now) }
    {
        let (front, _size, slash) = self.front(name);
        put_texts(out, &[front, slash])?;
        put_escaped(out, name)
    }

    /// Writes the URI of a name inside a string of JSON.
    pub(crate) fn put_uri_inside<W: Write>(
        &self,
        out: &mut Sink<W>,
        name: &[u8],
    ) -> Result<(), WriteFault>
        ensures { Puts out.old out.new result (escape (uri_of self.now name.now)) }
    {
        let (front, size, slash) = self.front(name);
        put_sized(out, front, size)?;
        put_json(out, slash)?;
        put_escaped(out, name)
    }

    /// How many bytes the URI of a name takes inside a string of JSON.
    pub(crate) fn uri_length_inside(&self, name: &[u8]) -> u128
        ensures value { result ≡ length (escape (uri_of self.now name.now)) }
        ensures few { result < 2 ^ 69 }
    {
        let (_front, size, slash) = self.front(name);
        size + json_length(slash) + escaped_length(name)
    }
}
