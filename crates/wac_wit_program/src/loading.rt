//! Reads the files of packages.

use std::alloc::Global;
use std::path::Path;
use std::rt::Files;
use std::{fs, io};
use wac_wit::SourceFile;
use wac_wit_answers::{Failure, Texts};

/// Reads the texts of a file or a folder.
pub(crate) fn load<H: Files + AllocGlobal + Clone + Drop>(
    rt: &H,
    path: &str,
) -> Result<Texts, Failure> {
    let files = read_files(rt, path)?;
    let path = String::from_str(rt.alloc(), path)?;
    Ok(Texts { path, files })
}

// The files of the package at a path, and of those that lie in the folder `deps` there.
fn read_files<H: Files + AllocGlobal + Clone + Drop>(
    rt: &H,
    path: &str,
) -> Result<Vec<SourceFile>, Failure> {
    let mut files = Vec::new(rt.alloc());
    if !Path::new(path).is_dir(rt) {
        push_file(rt, &mut files, path, 0)?;
        return Ok(files);
    }
    push_folder(rt, &mut files, path, 0)?;
    if files.is_empty() {
        let line = format!(in rt.alloc(); "{path}: expected a folder with files `.wit`");
        return Err(Failure::refused(line));
    }
    let deps = format!(in rt.alloc(); "{path}/deps")?;
    if Path::new(&deps).is_dir(rt) {
        push_deps(rt, &mut files, &deps)?;
    }
    Ok(files)
}

// Reads the folders and files of `deps`, each a package.
fn push_deps<H: Files + AllocGlobal + Clone + Drop>(
    rt: &H,
    files: &mut Vec<SourceFile>,
    deps: &str,
) -> Result<(), Failure> {
    let names = names_in(rt, deps)?;
    for (index, name) in names.iter().enumerate() {
        let group = index.saturating_add(1);
        let path = format!(in rt.alloc(); "{deps}/{name}")?;
        if Path::new(&path).is_dir(rt) {
            push_folder(rt, files, &path, group)?;
        } else if name.ends_with(".wit") {
            push_file(rt, files, &path, group)?;
        }
    }
    Ok(())
}

// Reads the files of a folder, which are one package.
fn push_folder<H: Files + AllocGlobal + Clone + Drop>(
    rt: &H,
    files: &mut Vec<SourceFile>,
    folder: &str,
    group: usize,
) -> Result<(), Failure> {
    for name in &names_in(rt, folder)? {
        let path = format!(in rt.alloc(); "{folder}/{name}")?;
        if name.ends_with(".wit") && !Path::new(&path).is_dir(rt) {
            push_file(rt, files, &path, group)?;
        }
    }
    Ok(())
}

fn push_file<H: Files + AllocGlobal>(
    rt: &H,
    files: &mut Vec<SourceFile>,
    path: &str,
    group: usize,
) -> Result<(), Failure> {
    let alloc = rt.alloc();
    match fs::read_to_string(rt, path) {
        Ok(text) => {
            let name = String::from_str(alloc, path)?;
            files.push(SourceFile { name, text, group })?;
            Ok(())
        }
        Err(error) => Err(refused_path(alloc, path, error.kind())),
    }
}

// Why a file or a folder isn't read.
fn refused_path(alloc: Global, path: &str, kind: io::ErrorKind) -> Failure {
    let fault = match kind {
        io::ErrorKind::OutOfMemory => return Failure::Memory,
        io::ErrorKind::NotFound => "there is no such file or folder",
        io::ErrorKind::InvalidData => "expected text in UTF-8",
        io::ErrorKind::PermissionDenied => "reading isn't allowed",
        _ => "a read failed",
    };
    Failure::refused(format!(in alloc; "{path}: {fault}"))
}

// The names in a folder, in order.
fn names_in<H: Files + AllocGlobal + Clone + Drop>(
    rt: &H,
    folder: &str,
) -> Result<Vec<String>, Failure> {
    let alloc = rt.alloc();
    let mut names = Vec::new(alloc);
    let entries = match fs::read_dir(rt, folder) {
        Ok(entries) => entries,
        Err(error) => return Err(refused_path(alloc, folder, error.kind())),
    };
    for entry in entries {
        match entry {
            Ok(entry) => names.push(String::from_str(alloc, entry.file_name())?)?,
            Err(error) => return Err(refused_path(alloc, folder, error.kind())),
        }
    }
    names.sort()?;
    Ok(names)
}
