//! The notes of a merge as rows, each with its texts.

ghost use Rattle.std.specs.Prelude.{◌≡◌, ◌∷◌, [], IfOk, OnOk, length, map};
ghost use Rattle.std.specs.List.{flat_map};
ghost use Rattle.dd_calls.specs.Texts.{Puts};
ghost use Rattle.dd_making.specs.Notes.{AddsNotes, AreNotesOf, left_out_row, left_out_texts, names_row, names_texts};

use dd_calls::Texts;
use dd_elem::Key;
use dd_engine::{LeftOut, Notes, PatientNames, Pick};
use std::alloc::{AllocError, Global};

/// A note of a merge.
#[repr(C)]
#[derive(Debug, Clone, Copy, PartialEq, Eq)]
pub struct NoteRow {
    /// 1 where a file is left out; its texts are its File ID, the File ID of the kept file and the SOP Instance UID of
    /// both. 2 where a Patient ID has several names; its texts are the Patient ID and these names.
    pub kind: u64,
    /// Of 1 the number of the set whose file is left out, else 0.
    pub set: u64,
    /// Of 1 the number of the set whose file is kept, else 0.
    pub kept: u64,
    /// Of 2 how many names there are, else 0.
    pub names: u64,
}

/// Holds notes as rows, and their texts.
#[derive(Drop)]
pub(crate) struct NoteTable {
    pub(crate) rows: Vec<NoteRow>,
    pub(crate) texts: Texts,
}

impl NoteTable {
    /// Makes the table of these notes: of the files that are left out, and then of the Patient IDs.
    pub(crate) fn of(alloc: Global, notes: &Notes<Pick<'_>>) -> Result<NoteTable, AllocError>
        ensures { IfOk result (AreNotesOf notes.now) }
    {
        let mut table = NoteTable {
            rows: Vec::new(alloc),
            texts: Texts::new(alloc),
        };
        table.add_left_out(&notes.left_out)?;
        table.add_names(&notes.names)?;
        Ok(table)
    }

    fn add_left_out(&mut self, notes: &[LeftOut<Pick<'_>>]) -> Result<(), AllocError>
        ensures { OnOk result (AddsNotes (map left_out_row notes.now) (flat_map left_out_texts notes.now)
            self.old self.new) }
    {
        for note in notes {
            self.add_file(note)?;
        }
        Ok(())
    }

    fn add_file(&mut self, note: &LeftOut<Pick<'_>>) -> Result<(), AllocError>
        ensures { OnOk result (AddsNotes (left_out_row note.now ∷ []) (left_out_texts note.now)
            self.old self.new) }
    {
        self.rows.push(NoteRow {
            kind: 1,
            set: note.file.set as u64,
            kept: note.kept.set as u64,
            names: 0,
        })?;
        self.texts.put(note.file.file)?;
        self.texts.put(note.kept.file)?;
        self.texts.put(note.instance.as_bytes())
    }

    fn add_names(&mut self, patients: &[PatientNames]) -> Result<(), AllocError>
        ensures { OnOk result (AddsNotes (map names_row patients.now) (flat_map names_texts patients.now)
            self.old self.new) }
    {
        for patient in patients {
            self.add_patient(patient)?;
        }
        Ok(())
    }

    fn add_patient(&mut self, patient: &PatientNames) -> Result<(), AllocError>
        ensures { OnOk result (AddsNotes (names_row patient.now ∷ []) (names_texts patient.now)
            self.old self.new) }
    {
        let names = patient.names();
        self.rows.push(NoteRow {
            kind: 2,
            set: 0,
            kept: 0,
            names: names.len() as u64,
        })?;
        self.texts.put(patient.id().as_bytes())?;
        put_names(names, &mut self.texts)
    }
}

fn put_names(names: &[Key], texts: &mut Texts) -> Result<(), AllocError>
    ensures { OnOk result (Puts names.now texts.old texts.new) }
{
    for name in names {
        texts.put(name.as_bytes())?;
    }
    Ok(())
}
