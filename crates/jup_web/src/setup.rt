//! What a server reads and finds out before it serves.
use jup_service::{
    Address, Attempt, FiledText, KeptFile, LinkWords, ServiceEnd, ServiceWords, check_captions,
    own_origins, star_of_printed,
};
use jup_star::Star;
use std::alloc::{AllocError, Global};
use std::fs::{File, Files};
use std::io::Read;
use std::net::{Net, TcpListener, TcpStream};

/// What a server has before it serves.
#[derive(Drop)]
pub(crate) struct Setup {
    pub(crate) board: OpenedBoard,
    pub(crate) bodies: Bodies,
    pub(crate) door: Door,
}

/// The file of the board.
#[derive(Drop)]
pub(crate) struct OpenedBoard {
    pub(crate) file: KeptFile,
    /// What the file has.
    pub(crate) text: FiledText,
    pub(crate) star: Star,
}

/// What browsers get of files.
#[derive(Drop)]
pub(crate) struct Bodies {
    pub(crate) captions: Vec<u8>,
    /// The page that the command line names, if it names one.
    pub(crate) page: Option<Vec<u8>>,
}

/// Where browsers come.
#[derive(Drop)]
pub(crate) struct Door {
    pub(crate) listener: TcpListener,
    pub(crate) origins: Vec<String>,
    pub(crate) links: LinkWords,
}

/// Reads the files, in this order: board, captions, page. Then it listens.
pub(crate) fn prepare<R: Net<Listener = TcpListener, Stream = TcpStream> + Files<File = File>>(
    rt: &R,
    alloc: Global,
    told: &ServiceWords<'_>,
    links: LinkWords,
) -> Result<Setup, ServiceEnd> {
    let board = open_board(rt, alloc, told)?;
    let bodies = read_bodies(rt, alloc, told)?;
    let door = open_door(rt, alloc, told, links)?;
    Ok(Setup {
        board,
        bodies,
        door,
    })
}

fn open_board<R: Files<File = File>>(
    rt: &R,
    alloc: Global,
    told: &ServiceWords<'_>,
) -> Result<OpenedBoard, ServiceEnd> {
    let (file, text) = KeptFile::open(rt, alloc, told.board)?;
    let star = star_of_printed(alloc, text.as_slice(), told.limit)?;
    Ok(OpenedBoard { file, text, star })
}

fn read_bodies<R: Files<File = File>>(
    rt: &R,
    alloc: Global,
    told: &ServiceWords<'_>,
) -> Result<Bodies, ServiceEnd> {
    let captions = read_captions(rt, alloc, told.captions)?;
    let page = read_told(rt, alloc, told.page, Attempt::ReadPage)?;
    Ok(Bodies { captions, page })
}

fn open_door<R: Net<Listener = TcpListener, Stream = TcpStream>>(
    rt: &R,
    alloc: Global,
    told: &ServiceWords<'_>,
    links: LinkWords,
) -> Result<Door, ServiceEnd> {
    let listener = listen(rt, told)?;
    let origins = origins_of(alloc, told, &listener)?;
    Ok(Door {
        listener,
        origins,
        links,
    })
}

// Reads all of the file that the command line names; `None` if it names none.
fn read_told<R: Files<File = File>>(
    rt: &R,
    alloc: Global,
    name: Option<&str>,
    attempt: Attempt,
) -> Result<Option<Vec<u8>>, ServiceEnd> {
    let Some(name) = name else {
        return Ok(None);
    };
    let mut file = match File::open(rt, name) {
        Ok(file) => file,
        Err(error) => return Err(ServiceEnd::of_failure(attempt, &error)),
    };
    let mut bytes = Vec::new(alloc);
    match file.read_to_end(&mut bytes) {
        Ok(_) => Ok(Some(bytes)),
        Err(error) => Err(ServiceEnd::of_failure(attempt, &error)),
    }
}

// Reads the captions of the file that the command line names, if it names one.
fn read_captions<R: Files<File = File>>(
    rt: &R,
    alloc: Global,
    name: Option<&str>,
) -> Result<Vec<u8>, ServiceEnd> {
    let Some(text) = read_told(rt, alloc, name, Attempt::ReadCaptions)? else {
        return Ok(Vec::new(alloc));
    };
    match check_captions(alloc, text.as_slice()) {
        Ok(()) => Ok(text),
        Err((line, fault)) => Err(ServiceEnd::of_captions(line, fault)),
    }
}

// Listens where the command line says.
fn listen<R: Net<Listener = TcpListener, Stream = TcpStream>>(
    rt: &R,
    told: &ServiceWords<'_>,
) -> Result<TcpListener, ServiceEnd> {
    match TcpListener::bind(rt, told.listen) {
        Ok(listener) => Ok(listener),
        Err(error) => Err(ServiceEnd::of_failure(Attempt::Listen, &error)),
    }
}

// The origins under which browsers reach a server that listens. There has to be one.
fn origins_of(
    alloc: Global,
    told: &ServiceWords<'_>,
    listener: &TcpListener,
) -> Result<Vec<String>, ServiceEnd> {
    let at = match listener.local_addr() {
        Ok(at) => at,
        Err(error) => return Err(ServiceEnd::of_failure(Attempt::Listen, &error)),
    };
    let address = Address {
        port: at.port(),
        is_loopback: at.ip().is_loopback(),
        is_wildcard: at.ip().is_unspecified(),
    };
    let (host, _) = told.listen.rsplit_once(':').unwrap_or((told.listen, ""));
    let origins = own_origins(alloc, host, address, told.origin)?;
    if origins.is_empty() {
        return Err(ServiceEnd::NoOrigin);
    }
    Ok(origins)
}

/// The bytes of texts.
pub(crate) fn slices(alloc: Global, texts: &[String]) -> Result<Vec<&[u8]>, AllocError> {
    texts.iter().map(String::as_bytes).collect(alloc)
}
