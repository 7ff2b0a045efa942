//! What `index`, `merge` and `withdraw` print as JSON objects.

use crate::runs::scripts::{end_by, ran};
use dd_mem_files::MemFiles;
use dd_vectors::{ask_all, v1_with};
use std::alloc::Global;
use std::test::Fail;

/// Cases of `ran`, with `'` for each `"` of the answer.
const NOTES: &str = "\
full=set: - - dicomdir index out note.txt a.dcm d.dcm c.dcm --uid 2.25.0 --json > \
0 [{'line':'SKIP','path':'note.txt','fault':{'number':31,'name':'File','words':'31 File 21 NotPart10',\
'cause':{'number':21,'name':'NotPart10'}}}|\
{'line':'NOTE','kind':'left_out','path':'a.dcm','kept':'c.dcm','uid':'1.2.3.4.5'}|\
{'line':'NOTE','kind':'names','patient_id':'P1','count':2,'names':['DOE^JUDY','DOE^JOHN']}|\
{'line':'DONE','instances':2,'bytes':1130}|] [] changed
full=set: - - dicomdir index out b.dcm part.dcm --json --dry-run --uid 2.25.0 > \
0 [{'line':'SKIP','path':'b.dcm','fault':{'number':32,'name':'NotImage',\
'words':'32 NotImage 1.2.840.10008.5.1.4.1.1.88.11','class_name':'Basic Text SR Storage'}}|\
{'line':'SKIP','path':'part.dcm','fault':{'number':31,'name':'File','words':'31 File 27 Set 1 Truncated',\
'cause':{'number':27,'name':'Set'}}}|{'line':'PLAN','instances':0,'bytes':320,'image_bytes':0}|] [] kept
full=set: - - dicomdir index -k out none.dcm a.dcm --uid 2.25.0 --dry-run --json > \
3 [{'line':'SKIP','path':'none.dcm','fault':{'number':92,'name':'Absent','words':'92 Absent'}}|\
{'line':'PLAN','instances':1,'bytes':876,'image_bytes':454}|] [] kept
q\"\\\t\u{1b}\u{e9}=note.txt: - - dicomdir index out q\"\\\t\u{1b}\u{e9} --uid 2.25.0 --json > \
0 [{'line':'SKIP','path':'q\\'\\\\\\t\\u001b\u{c3}\u{a9}','fault':{'number':31,'name':'File',\
'words':'31 File 21 NotPart10','cause':{'number':21,'name':'NotPart10'}}}|\
{'line':'DONE','instances':0,'bytes':320}|] [] changed
full=set: - - dicomdir index out n.dcm o.dcm --strict --json --quiet > \
1 [{'line':'NOTE','kind':'names','patient_id':'NOID','count':2,'names':['DOE^JOHN','']}|] \
[{'line':'FAULT','path':null,'fault':{'number':98,'name':'Strict','words':'98 Strict'}}|] kept
full=set: - - dicomdir index out d.dcm n.dcm --json --quiet > \
1 [{'line':'NOTE','kind':'conflict','path':'n.dcm','uid':'1.2.3.4.5'}|\
{'line':'NOTE','kind':'conflict','path':'d.dcm','uid':'1.2.3.4.6'}|] \
[{'line':'FAULT','path':null,'fault':{'number':41,'name':'Conflict','words':'41 Conflict 1.2.3.4.5 1.2.3.4.6'}}|] kept
full=set: 9 - dicomdir index out a.dcm --json > 1 [{'line':'] [] changed
full=set: 16 - dicomdir index out note.txt --json > 1 [{'line':'SKIP','] [] kept
index d1 a.dcm; index d2 c.dcm; index d3 p.dcm; index d4 d.dcm; withdraw d5 d2 1.2.3.4.8; \
d6/DICOMDIR=first,568,00000000: - - dicomdir merge o d1 d2 d3 d4 d5 d6 --uid 2.25.0 --json > \
0 [{'line':'NOTE','kind':'unreached','path':'d6','records':1}|\
{'line':'NOTE','kind':'left_out','path':'d1/PT000001/ST000001/SE000001/IM000001',\
'kept':'d2/PT000001/ST000001/SE000001/IM000001','uid':'1.2.3.4.5'}|\
{'line':'NOTE','kind':'names','patient_id':'P1','count':2,'names':['DOE^JUDY','DOE^JOHN']}|\
{'line':'DONE','instances':2,'bytes':1172}|] [] changed
index d1 a.dcm; index d2 a.dcm p.dcm: - - dicomdir merge o d1 d2 --uid 2.25.0 --dry-run --json > \
0 [{'line':'NOTE','kind':'names','patient_id':'P1','count':2,'names':['DOE^J?RG','DOE^JOHN']}|\
{'line':'PLAN','instances':2,'bytes':1130}|] [] kept
d1=set; withdraw d2 d1 1.2.3.4.5: - - dicomdir merge o d2/ d1 --strict --json --quiet > \
1 [{'line':'NOTE','kind':'withdrawn','path':'d1/PT000001/ST000001/SE000001/IM000001','by':'d2/',\
'uid':'1.2.3.4.5'}|] [{'line':'FAULT','path':null,'fault':{'number':98,'name':'Strict','words':'98 Strict'}}|] kept
d1=set: - - dicomdir withdraw o d1 1.2.3.4.6 --uid 2.25.0 --json > \
0 [{'line':'NOTE','kind':'unlisted','uid':'1.2.3.4.6'}|{'line':'DONE','instances':1,'bytes':918}|] [] changed
d1=set: - - dicomdir withdraw o d1 1.2.3.4.6 --uid 2.25.0 --json --dry-run > \
0 [{'line':'NOTE','kind':'unlisted','uid':'1.2.3.4.6'}|{'line':'PLAN','instances':1,'bytes':918}|] [] kept";

/// Gives the answer with `'` for each `"`.
fn unquoted(alloc: Global, answer: &String) -> Result<String, Fail> {
    Ok(answer.as_str().replace(alloc, '"', "'")?)
}

fn ran_unquoted(alloc: Global, question: &str) -> Result<String, Fail> {
    unquoted(alloc, &ran(alloc, question)?)
}

/// The number of the last image of an index, and what the index prints: ten names at most. Each image has a number from
/// 10 on, which its UID and its name end with.
const NAMES: &str = "\
19 --json > 0 [{'line':'NOTE','kind':'names','patient_id':'P1','count':10,'names':\
['JO19','JO18','JO17','JO16','JO15','JO14','JO13','JO12','JO11','JO10']}|\
{'line':'PLAN','instances':10,'bytes':3158,'image_bytes':4500}|] []
20 --json > 0 [{'line':'NOTE','kind':'names','patient_id':'P1','count':11,'names':\
['JO20','JO19','JO18','JO17','JO16','JO15','JO14','JO13','JO12','JO11']}|\
{'line':'PLAN','instances':11,'bytes':3412,'image_bytes':4950}|] []
20 --quiet > 0 [NOTE -: Patient ID P1 has 11 names: \
JO20, JO19, JO18, JO17, JO16, JO15, JO14, JO13, JO12, JO11, ..|\
PLAN 11 instances, 3412 bytes, 4950 bytes of images|] []";

fn named(alloc: Global, question: &str) -> Result<String, Fail> {
    let (last, flag) = question.split_once(' ').ok_or("no flag")?;
    let last: u32 = last.parse()?;
    let mut files = MemFiles::new(alloc);
    let mut line = format!(in alloc; "index out --dry-run --uid 2.25.0 {flag}")?;
    for n in 10..=last {
        let uid = format!(in alloc; "0002,0003 UI '1.2.3.4.{n}; 0008,0018 UI '1.2.3.4.{n}")?;
        let changes = format!(in alloc; "{uid}; 0010,0010 PN 'JO{n}")?;
        let path = format!(in alloc; "{n}.dcm")?;
        files.put(path.as_str(), &v1_with(alloc, changes.as_str())?)?;
        line.push(' ')?;
        line.push_str(path.as_str())?;
    }
    unquoted(alloc, &end_by(alloc, line.as_str(), &mut files)?)
}

#[test]
fn notes_are_objects_and_show_ten_names(rt: HostRuntime) -> Result<(), Fail> {
    ask_all(rt.alloc(), NOTES, ran_unquoted)?;
    ask_all(rt.alloc(), NAMES, named)
}
