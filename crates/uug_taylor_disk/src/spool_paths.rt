//! The paths of the folders of a spool.
ghost use Rattle.std.specs.Prelude.{◌≡◌, ◌++◌, IfOk, codes, string_bytes};
ghost use Rattle.uug_taylor_disk.specs.Paths.{below_public, file_path, partial_path, preserved_in, room_path};

use std::alloc::{AllocError, Allocator};
use uug_error::EndDir;
use uug_talk::Name;
use uug_taylor_text::{Room, Spot};

/// The paths of a spool, of one system's folders in it, and of the public folder.
#[derive(Drop)]
pub struct SpoolPaths<A: Allocator> {
    spool: String<A>,
    system: Name,
    public: String<A>,
}

impl<A: Allocator + Copy> SpoolPaths<A> {
    /// Creates the paths of the spool at `spool`, of this system's folders, and of the public folder at `public`.
    pub fn new(alloc: A, spool: &str, system: Name, public: &str) -> Result<Self, AllocError>
        ensures spool { IfOk result (λ paths. string_bytes paths.spool ≡ spool.now) }
        ensures system { IfOk result (λ paths. paths.system ≡ system) }
        ensures public { IfOk result (λ paths. string_bytes paths.public ≡ public.now) }
    {
        Ok(SpoolPaths {
            spool: String::from_str(alloc, spool)?,
            system,
            public: String::from_str(alloc, public)?,
        })
    }
}

impl<A: Allocator> SpoolPaths<A> {
    /// Returns the path of the spool.
    pub fn spool(&self) -> &str
        ensures { result.now ≡ string_bytes self.now.spool }
    {
        self.spool.as_str()
    }

    /// Returns the name of the system, which is that of its folder.
    pub fn system(&self) -> &Name
        ensures { result.now ≡ self.now.system }
    {
        &self.system
    }

    /// Returns the path of the public folder.
    pub fn public(&self) -> &str
        ensures { result.now ≡ string_bytes self.now.public }
    {
        self.public.as_str()
    }

    /// Returns the path of the folder with the partial files of the system.
    pub fn partial<B: Allocator>(&self, alloc: B) -> Result<String<B>, AllocError>
        ensures { IfOk result (λ path. string_bytes path ≡ partial_path self.now) }
    {
        let spool = self.spool.as_str();
        let system = self.system.as_str();
        let path = format!(in alloc; "{spool}/.Partial/{system}")?;
        Ok(path)
    }

    /// Returns the spool as the folder that a failure names.
    pub fn end_dir(&self) -> EndDir<'_> {
        EndDir {
            path: self.spool.as_str(),
            number: 0,
        }
    }

    /// Returns the path of a room.
    pub(crate) fn room<B: Allocator>(&self, alloc: B, room: Room) -> Result<String<B>, AllocError>
        ensures { IfOk result (λ path. string_bytes path ≡ room_path self.now room) }
    {
        let spool = self.spool.as_str();
        let system = self.system.as_str();
        let path = match room {
            Room::Commands => format!(in alloc; "{spool}/{system}/C.")?,
            Room::Data => format!(in alloc; "{spool}/{system}/D.")?,
            Room::Text => format!(in alloc; "{spool}/{system}/D.X")?,
            Room::Execution => format!(in alloc; "{spool}/{system}/X.")?,
            Room::Public => String::from_str(alloc, self.public.as_str())?,
            Room::Temporary => format!(in alloc; "{spool}/.Temp/{system}")?,
            Room::Marked => format!(in alloc; "{spool}/.Received/{system}")?,
            Room::Preserved => format!(in alloc; "{spool}/.Preserve")?,
        };
        Ok(path)
    }

    /// Returns the path of a file.
    pub fn file<B: Allocator + Copy>(&self, alloc: B, spot: &Spot) -> Result<String<B>, AllocError>
        ensures { IfOk result (λ path. string_bytes path ≡ file_path self.now spot.now) }
    {
        let room = self.room(alloc, spot.room)?;
        let front = room.as_str();
        let name = spot.name.as_str();
        let path = match spot.room {
            Room::Preserved => preserved_in(alloc, front, self.system.as_str(), name)?,
            Room::Public => below_public(alloc, front, name)?,
            _ => below(alloc, front, name)?,
        };
        Ok(path)
    }
}

/// Returns the path of a file in a folder.
fn below<B: Allocator>(alloc: B, folder: &str, name: &str) -> Result<String<B>, AllocError>
    ensures { IfOk result (λ path. string_bytes path ≡ folder.now ++ codes "/" ++ name.now) }
{
    let path = format!(in alloc; "{folder}/{name}")?;
    Ok(path)
}

/// Returns the path of a preserved file. All systems share this folder, and may have data of the same names.
fn preserved_in<B: Allocator>(
    alloc: B,
    folder: &str,
    system: &str,
    name: &str,
) -> Result<String<B>, AllocError>
    ensures { IfOk result (λ path.
        string_bytes path ≡ preserved_in folder.now system.now name.now) }
{
    let path = format!(in alloc; "{folder}/{system}.{name}")?;
    Ok(path)
}

/// Returns the path of a file below the public folder, or outside it if the name is a whole path.
fn below_public<B: Allocator>(alloc: B, public: &str, name: &str) -> Result<String<B>, AllocError>
    ensures { IfOk result (λ path.
        string_bytes path ≡ below_public public.now name.now) }
{
    if name.as_bytes().starts_with(b"/") {
        String::from_str(alloc, name)
    } else {
        below(alloc, public, name)
    }
}
