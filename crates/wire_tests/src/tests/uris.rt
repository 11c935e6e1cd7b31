//! File URIs, as clients write them.
use cb_tags::Sink;
use cb_wire::{Root, path_of_uri, put_escaped, steps_back};
use std::alloc::{AllocError, Global};
use std::process::Abort;
use std::test::Fail;

/// A URI has this path.
fn has_path(rt: &impl Abort, alloc: Global, uri: &[u8], path: &[u8]) -> Result<(), AllocError> {
    match path_of_uri(alloc, uri)? {
        Some(found) => assert_eq!(rt; found.as_slice(), path),
        None => assert!(rt; false),
    }
    Ok(())
}

#[test]
fn paths_of_uris(rt: HostRuntime) -> Result<(), Fail> {
    has_path(&rt, rt.alloc(), b"file:///w/%61.c", b"/w/a.c")?;
    has_path(&rt, rt.alloc(), b"FILE://LocalHost/w/a.c", b"/w/a.c")?;
    has_path(
        &rt,
        rt.alloc(),
        b"file:///a%20tree%20%c3%A9/a.c",
        b"/a tree \xC3\xA9/a.c",
    )?;
    has_path(&rt, rt.alloc(), b"file:///100%.c%2", b"/100%.c%2")?;
    has_path(&rt, rt.alloc(), b"file:///w//./src/.//a.c", b"/w/src/a.c")?;
    has_path(&rt, rt.alloc(), b"file:///w/%2E/a.c/", b"/w/a.c")?;
    has_path(&rt, rt.alloc(), b"file:///w/.x/y./a.c", b"/w/.x/y./a.c")?;
    has_path(&rt, rt.alloc(), b"file:///w/../w/a.c", b"/w/../w/a.c")?;
    assert!(rt; steps_back(b"/w/../w/a.c"));
    assert!(rt; !steps_back(b"/w/..a/b../a.c"));
    assert!(rt; path_of_uri(rt.alloc(), b"untitled:a.c")?.is_none());
    assert!(rt; path_of_uri(rt.alloc(), b"file://host/a.c")?.is_none());
    Ok(())
}

/// A name below a root has this URI, and its path this name.
fn has_uri(
    rt: &impl Abort,
    alloc: Global,
    root: &Root,
    name: &[u8],
    uri: &[u8],
) -> Result<(), AllocError> {
    let mut written = Vec::new(alloc);
    let mut sink = Sink::new(&mut written);
    assert!(rt; root.put_uri(&mut sink, name).is_ok());
    assert_eq!(rt; written.as_slice(), uri);
    match path_of_uri(alloc, uri)? {
        Some(path) => assert_eq!(rt; root.name(path.as_slice()), name),
        None => assert!(rt; false),
    }
    Ok(())
}

#[test]
fn names_below_a_root(rt: HostRuntime) -> Result<(), Fail> {
    let Some(root) = Root::of_uri(rt.alloc(), b"file:///w%20x//")? else {
        return Ok(());
    };
    has_uri(&rt, rt.alloc(), &root, b"src/a.c", b"file:///w%20x/src/a.c")?;
    has_uri(
        &rt,
        rt.alloc(),
        &root,
        b"/usr/x+y.h",
        b"file:///usr/x%2By.h",
    )?;
    assert_eq!(rt; root.uri(), b"file:///w%20x".as_slice());
    let folder = Root::of_folder(rt.alloc(), b"/a \xC3\xA9/")?;
    has_uri(&rt, rt.alloc(), &folder, b"a.c", b"file:///a%20%C3%A9/a.c")?;
    let none = Root::of_folder(rt.alloc(), b"")?;
    has_uri(&rt, rt.alloc(), &none, b"w/a.c", b"file:///w/a.c")?;
    Ok(())
}

#[test]
fn paths_are_escaped(rt: HostRuntime) {
    let mut written = Vec::new(rt.alloc());
    let mut sink = Sink::new(&mut written);
    assert!(rt; put_escaped(&mut sink, b"/x y~-._Z9%").is_ok());
    assert_eq!(rt; written.as_slice(), b"/x%20y~-._Z9%25".as_slice());
}
